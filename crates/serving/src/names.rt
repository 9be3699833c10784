//! By which names the client of a store knows its transactions.

ghost use Rattle.std.specs.Prelude.{◌≡◌, ◌<◌, IfOk, map};
ghost use Rattle.object_trait.specs.Orders.{Pairs};
ghost use Rattle.durable_store.specs.Held.{as_denied};
ghost use Rattle.serving.specs.Does.{call_answer, denied_answer};
ghost use Rattle.serving.specs.Names.{carried_given, carried_number, carried_over, given_names, is_numbered, known_by, known_name, number_named, unless_carried};
ghost use Rattle.serving.specs.NextEpoch.{full_with};
ghost use Rattle.std.specs.List.{find};

use crate::answer_line::AnswerLine;
use crate::session::{Session, reply_at};
use durable_store::Denial;
use journal::Prepared;
use object_calls::Answer;
use request_text::TransactionName;
use serial_order::Refusal;
use sqlite_trees::store::Alter;
use std::alloc::{AllocError, Global};
use std::marker::Model;

/// However many events an epoch began with, it is full with this many: 20,000 less than a history can have.
const MOST_EVER: u32 = 980_000;

/// A transaction that began in an earlier life, with the number that it has now.
#[derive(Clone, Copy)]
pub struct Carried {
    pub name: TransactionName,
    pub number: u32,
}

/// By which names the client of a store knows its transactions: those of the present life, and those that were carried into
/// it. It knows with how many events the epoch began, too, where that was seen. Contracts see the life, the list and the count.
#[derive(Drop)]
pub struct Names {
    life: u32,
    carried: Vec<Carried>,
    begun_with: u32,
}

impl Model for Names {
    ghost use Rattle.serving.specs.Names.{KnownNames};

    ghost Value = { KnownNames };

    ghost view = { λ a. record { life = a.life; carried = a.carried.items; begun_with = a.begun_with } };
}

impl Names {
    /// In this life, into which these were carried, with this many events in all.
    pub(crate) fn new(life: u32, carried: Vec<Carried>, begun_with: u32) -> Names
        ensures { result ≡ record { life = life; carried = carried.items; begun_with = begun_with } }
    {
        Names {
            life,
            carried,
            begun_with,
        }
    }

    /// Where a session begins in this life: who is prepared has the name that its client was given.
    ///
    /// # Errors
    ///
    /// Memory was refused.
    pub(crate) fn given(
        alloc: Global,
        life: u32,
        prepared: &[Prepared],
    ) -> Result<Names, AllocError>
        ensures { IfOk result (λ names. names ≡ given_names life prepared.now) }
    {
        let carried = all_given(alloc, prepared)?;
        Ok(Names::new(life, carried, 0))
    }

    /// The present life.
    pub(crate) fn life(&self) -> u32
        ensures { result ≡ self.now.life }
    {
        self.life
    }

    /// With this many events its epoch is full, where one is with this many more than it began with.
    pub(crate) fn full_with(&self, most: u32) -> u32
        ensures { result ≡ full_with most self.now }
    {
        self.begun_with.saturating_add(most).min(MOST_EVER)
    }

    /// The name by which its client knows the transaction of this number.
    pub(crate) fn name_of(&self, number: u32) -> TransactionName
        ensures { result ≡ known_name self.now number }
    {
        name_in(self.life, &self.carried, number)
    }

    /// The number of the transaction of this name, where there is one.
    pub(crate) fn number_of(&self, t: TransactionName) -> Option<u32>
        ensures { result ≡ number_named self.now t }
    {
        if t.life == self.life {
            return unless_carried(&self.carried, t.number);
        }
        number_in(&self.carried, t)
    }

    /// Those that go over to another epoch with these numbers, each by the name by which it is known.
    ///
    /// # Errors
    ///
    /// Memory was refused.
    pub(crate) fn carried_over(
        &self,
        alloc: Global,
        those: &[u32],
    ) -> Result<Vec<Carried>, AllocError>
        requires { Pairs (λ a b. a < b) those.now }
        ensures { IfOk result (λ carried. carried.items ≡ carried_over self.now those.now) }
    {
        let mut carried = Vec::with_capacity(alloc, those.len())?;
        for place in 0..those.len() {
            let name = self.name_of(those[place]);
            // each stands behind as many as its place says
            carried.push_reserved(Carried {
                name,
                number: place as u32,
            });
        }
        Ok(carried)
    }
}

/// The name by which a client knows the transaction of this number, in this life into which these were carried.
fn name_in(life: u32, carried: &[Carried], number: u32) -> TransactionName
    ensures { result ≡ known_by life number (find (is_numbered number) carried.now) }
{
    match carried.iter().find(|c| c.number == number) {
        Some(c) => c.name,
        None => TransactionName { life, number },
    }
}

/// The number of the first of these that has this name.
fn number_in(carried: &[Carried], t: TransactionName) -> Option<u32>
    ensures { result ≡ carried_number carried.now t }
{
    match carried
        .iter()
        .find(|c| c.name.life == t.life && c.name.number == t.number)
    {
        Some(c) => Some(c.number),
        None => None,
    }
}

/// This number, unless one of these has it.
fn unless_carried(carried: &[Carried], number: u32) -> Option<u32>
    ensures { result ≡ unless_carried carried.now number }
{
    if carried.iter().any(|c| c.number == number) {
        return None;
    }
    Some(number)
}

/// Those that are prepared, each by the name that its client was given.
///
/// # Errors
///
/// Memory was refused.
fn all_given(alloc: Global, prepared: &[Prepared]) -> Result<Vec<Carried>, AllocError>
    ensures { IfOk result (λ carried. carried.items ≡ map carried_given prepared.now) }
{
    let mut carried = Vec::with_capacity(alloc, prepared.len())?;
    for p in prepared {
        let name = TransactionName {
            life: p.given.life,
            number: p.given.number,
        };
        carried.push_reserved(Carried {
            name,
            number: p.number,
        });
    }
    Ok(carried)
}

impl<S: Alter> Session<S> {
    /// What a call at x is answered.
    pub(crate) fn call_answer(&self, x: u32, answer: &Result<Answer, Denial>) -> AnswerLine
        ensures { result ≡ call_answer self.now.store.store self.now.names x answer.now }
    {
        match *answer {
            Ok(Answer::Reply(k)) => reply_at(self.store.store(), x, k),
            Ok(Answer::Busy(number)) => AnswerLine::Busy {
                blocker: self.names.name_of(number),
            },
            Ok(Answer::None) => AnswerLine::Nothing,
            Err(why) => denied_answer(why),
        }
    }
}

/// That a transaction isn't open.
pub(crate) fn not_open() -> AnswerLine
    ensures { result ≡ AnswerLine.Refused Refusal.NotOpen }
{
    AnswerLine::Refused {
        refusal: Refusal::NotOpen,
    }
}

/// Why a command of a transaction isn't done.
pub(crate) fn denied_answer(why: Denial) -> AnswerLine
    ensures { result ≡ denied_answer why }
{
    match why {
        Denial::Prepared => AnswerLine::IsPrepared,
        Denial::Refused(refusal) => AnswerLine::Refused { refusal },
    }
}

/// What the store answered, where its refusal is a denial.
pub(crate) fn unless_refused(answered: Result<Answer, Refusal>) -> Result<Answer, Denial>
    ensures { result ≡ as_denied answered }
{
    match answered {
        Ok(answer) => Ok(answer),
        Err(refusal) => Err(Denial::Refused(refusal)),
    }
}
