//! Commits under keys, which are done once while what became of them is kept.

ghost use Rattle.std.specs.Prelude.{◌≡◌, ◌++◌, IfOk, None, OnOk, Some};
ghost use Rattle.journal.specs.Journal.{Clean, written};
ghost use Rattle.attempts.specs.Commands.{asked_calls};
ghost use Rattle.durable_store.specs.Durable.{IsDurable, KeepsSettled, OutcomesStay, WritesSince, is_prepared};
ghost use Rattle.durable_store.specs.Held.{first_passing, has_place};
ghost use Rattle.durable_store.specs.Keys.{AttemptsUnder, CommitsUnder, IsInState, IsSuperseded, KnowsKey, WritesUnder, op_of_object, outcome_under, reply_text, reply_word, spaced_word, with_key};

use crate::denial::Denial;
use crate::durable::Durable;
use crate::held_list::at_place;
use attempts::{Attempt, AttemptCall, Ending};
use journal::{JournalError, KeyedOutcome, Outcome, ReplyText};
use objects::Object;
use serial_order::Refusal;
use sqlite_trees::store::Alter;
use std::alloc::{AllocError, Global};
use store::Store;
use transaction_key::TransactionKey;
use type_table::{Op, Operation};

/// What came of work that is done at most once under a key, while what became of it is kept.
#[derive(Drop)]
pub enum Keyed<T: Drop> {
    /// The key was free and the work was done: the key says from now on what became of its transaction, until that is let go.
    Done(Outcome),
    /// The key was free and the work wasn't done: the key stays free.
    Undone(T),
    /// The key says what became of its transaction, and nothing was done; a transaction that asked for the commit of work that
    /// was done before was aborted.
    Known(Outcome),
    /// A transaction is prepared under the key, and nothing was done.
    Prepared,
    /// The place of the key is another key's, and nothing was done.
    Taken,
}

/// What is known of a key.
#[derive(Drop)]
pub enum KeyState {
    /// Nothing is kept at its place, and nobody is prepared under a key of that place.
    Free,
    /// This became of the transaction that has it.
    Known(Outcome),
    /// A transaction is prepared under it, and isn't decided.
    Prepared,
    /// Its place is another key's.
    Taken,
}

/// Why a whole transaction wasn't done.
#[derive(Clone, Copy)]
pub enum Unfinished {
    /// The call at this place, counted from 0, ended it: its transaction was aborted.
    Ended { at: usize, how: Ending },
    /// No transaction began.
    NotBegun(Refusal),
}

impl<S: Alter> Durable<S> {
    /// What became of the transaction that has this key, as far as the file knows: an epoch's end lets outcomes go since which
    /// as many were kept as stay at least, and their keys are unknown then.
    ///
    /// # Errors
    ///
    /// As `types`.
    pub fn outcome(
        &mut self,
        alloc: Global,
        key: &TransactionKey,
    ) -> Result<Option<Outcome>, JournalError>
        requires { IsDurable S.Store self.old }
        ensures found { IfOk result (λ found. Clean S.Store self.new.journal → found ≡ outcome_under (written S.Store self.old.journal) key.now) }
        ensures sound { OnOk result (IsDurable S.Store self.new) }
        ensures store { self.new.store ≡ self.old.store }
        ensures prepared { self.new.prepared ≡ self.old.prepared }
        ensures life { self.new.journal.header ≡ self.old.journal.header }
        ensures written { OnOk result (Clean S.Store self.new.journal → written S.Store self.new.journal ≡ written S.Store self.old.journal) }
        ensures settled { OnOk result (KeepsSettled S.Store self.old self.new) }
        ensures clean { Clean S.Store self.new.journal → Clean S.Store self.old.journal }
        ensures crash { OutcomesStay S.Store self.old self.new }
    {
        match self.state_of(alloc, key)? {
            KeyState::Known(outcome) => Ok(Some(outcome)),
            _ => Ok(None),
        }
    }

    /// Commits transaction t under a key, as `commit`, where the key is free. Where its transaction has committed, t, whose work
    /// was so done before, is aborted if it is open and isn't prepared. The client is answered after `settle` only, also where the key is known.
    /// A key whose outcome an epoch's end has let go is free again, and work under it is done once more.
    ///
    /// # Errors
    ///
    /// As `begin`. The store's own refusal is inside, and nothing has changed.
    pub fn commit_under(
        &mut self,
        alloc: Global,
        t: u32,
        key: TransactionKey,
    ) -> Result<Keyed<Denial>, JournalError>
        requires { IsDurable S.Store self.old }
        ensures knows { IfOk result (λ came. Clean S.Store self.new.journal → KnowsKey (written S.Store self.old.journal) key came) }
        ensures step { IfOk result (λ came. CommitsUnder (is_prepared self.old t) self.old.store t came self.new.store) }
        ensures prepared { OnOk result (self.new.prepared ≡ self.old.prepared) }
        ensures written { IfOk result (λ came. Clean S.Store self.new.journal → WritesUnder S.Store key came self.old self.new) }
        ensures sound { OnOk result (IsDurable S.Store self.new) }
        ensures life { self.new.journal.header ≡ self.old.journal.header }
        ensures settled { OnOk result (KeepsSettled S.Store self.old self.new) }
        ensures clean { Clean S.Store self.new.journal → Clean S.Store self.old.journal }
        ensures crash { OutcomesStay S.Store self.old self.new }
    {
        match self.state_of(alloc, &key)? {
            KeyState::Free => {}
            KeyState::Known(outcome) => {
                self.supersede(t, &outcome)?;
                return Ok(Keyed::Known(outcome));
            }
            KeyState::Prepared => return Ok(Keyed::Prepared),
            KeyState::Taken => return Ok(Keyed::Taken),
        }
        if let Err(denial) = self.commit(t)? {
            return Ok(Keyed::Undone(denial));
        }
        let none = ReplyText::new(Vec::new(alloc));
        let outcome = self.keep(key, Outcome::Committed(none))?;
        Ok(Keyed::Done(outcome))
    }

    /// A whole transaction under a key, as `attempt`, where the key is free: its replies are kept. The client is answered
    /// after `settle` only, also where the key is known. A key is free again once it is let go, as at `commit_under`.
    ///
    /// # Errors
    ///
    /// As `attempt`.
    pub fn attempt_under(
        &mut self,
        alloc: Global,
        calls: &[AttemptCall],
        key: TransactionKey,
    ) -> Result<Keyed<Unfinished>, JournalError>
        requires { IsDurable S.Store self.old }
        ensures knows { IfOk result (λ came. Clean S.Store self.new.journal → KnowsKey (written S.Store self.old.journal) key came) }
        ensures does { IfOk result (λ came. AttemptsUnder self.old.store (asked_calls calls.now) came self.new.store) }
        ensures prepared { OnOk result (self.new.prepared ≡ self.old.prepared) }
        ensures written { IfOk result (λ came. Clean S.Store self.new.journal → WritesUnder S.Store key came self.old self.new) }
        ensures sound { OnOk result (IsDurable S.Store self.new) }
        ensures life { self.new.journal.header ≡ self.old.journal.header }
        ensures settled { OnOk result (KeepsSettled S.Store self.old self.new) }
        ensures clean { Clean S.Store self.new.journal → Clean S.Store self.old.journal }
        ensures crash { OutcomesStay S.Store self.old self.new }
    {
        match self.state_of(alloc, &key)? {
            KeyState::Free => {}
            KeyState::Known(outcome) => return Ok(Keyed::Known(outcome)),
            KeyState::Prepared => return Ok(Keyed::Prepared),
            KeyState::Taken => return Ok(Keyed::Taken),
        }
        match self.attempt(alloc, calls)? {
            Attempt::Done(operations) => {
                let replies = reply_text(alloc, &self.store, calls, &operations)?;
                let outcome = self.keep(key, Outcome::Committed(replies))?;
                Ok(Keyed::Done(outcome))
            }
            Attempt::Ended { at, how } => Ok(Keyed::Undone(Unfinished::Ended { at, how })),
            Attempt::NotBegun(refusal) => Ok(Keyed::Undone(Unfinished::NotBegun(refusal))),
        }
    }

    /// Whether a key is free, and else what is known of it.
    ///
    /// # Errors
    ///
    /// As `types`.
    pub fn state_of(
        &mut self,
        alloc: Global,
        key: &TransactionKey,
    ) -> Result<KeyState, JournalError>
        requires { IsDurable S.Store self.old }
        ensures knows { IfOk result (λ state. Clean S.Store self.new.journal → IsInState (written S.Store self.old.journal) key.now state) }
        ensures sound { OnOk result (IsDurable S.Store self.new) }
        ensures store { self.new.store ≡ self.old.store }
        ensures prepared { self.new.prepared ≡ self.old.prepared }
        ensures life { self.new.journal.header ≡ self.old.journal.header }
        ensures written { OnOk result (Clean S.Store self.new.journal → written S.Store self.new.journal ≡ written S.Store self.old.journal) }
        ensures settled { OnOk result (KeepsSettled S.Store self.old self.new) }
        ensures clean { Clean S.Store self.new.journal → Clean S.Store self.old.journal }
        ensures crash { OutcomesStay S.Store self.old self.new }
    {
        if let Some(other) = at_place(&self.prepared, key) {
            if other.key == *key {
                return Ok(KeyState::Prepared);
            }
            return Ok(KeyState::Taken);
        }
        let Some(kept) = self.journal.outcome(alloc, key)? else {
            return Ok(KeyState::Free);
        };
        if kept.key == *key {
            return Ok(KeyState::Known(kept.outcome));
        }
        Ok(KeyState::Taken)
    }

    /// Aborts transaction t, where it is open, isn't prepared, and its work was done before.
    ///
    /// # Errors
    ///
    /// As `begin`.
    fn supersede(&mut self, t: u32, before: &Outcome) -> Result<(), JournalError>
        requires { IsDurable S.Store self.old }
        ensures step { OnOk result (IsSuperseded (is_prepared self.old t) self.old.store t before.now self.new.store) }
        ensures prepared { OnOk result (self.new.prepared ≡ self.old.prepared) }
        ensures sound { OnOk result (IsDurable S.Store self.new) }
        ensures life { self.new.journal.header ≡ self.old.journal.header }
        ensures written { OnOk result (WritesSince S.Store self.old self.new) }
        ensures settled { OnOk result (KeepsSettled S.Store self.old self.new) }
        ensures clean { Clean S.Store self.new.journal → Clean S.Store self.old.journal }
        ensures crash { OutcomesStay S.Store self.old self.new }
    {
        if let Outcome::Committed(_) = before {
            let _ = self.abort(t)?;
        }
        Ok(())
    }

    /// Keeps what became of the transaction that has this key, and gives it back: nothing else is kept at the key's place. A
    /// crash may still take it away.
    ///
    /// # Errors
    ///
    /// The file failed, or memory was refused for it.
    pub(crate) fn keep(
        &mut self,
        key: TransactionKey,
        outcome: Outcome,
    ) -> Result<Outcome, JournalError>
        requires sound { IsDurable S.Store self.old }
        requires unprepared { Clean S.Store self.old.journal → first_passing (has_place key) self.old.prepared.items ≡ None }
        ensures same { IfOk result (λ kept. kept ≡ outcome) }
        ensures sound { OnOk result (IsDurable S.Store self.new) }
        ensures store { self.new.store ≡ self.old.store }
        ensures prepared { self.new.prepared ≡ self.old.prepared }
        ensures life { self.new.journal.header ≡ self.old.journal.header }
        ensures written { OnOk result (Clean S.Store self.new.journal → written S.Store self.new.journal ≡ with_key key (Some outcome) (written S.Store self.old.journal)) }
        ensures settled { OnOk result (KeepsSettled S.Store self.old self.new) }
        ensures clean { Clean S.Store self.new.journal → Clean S.Store self.old.journal }
        ensures crash { OutcomesStay S.Store self.old self.new }
    {
        let kept = KeyedOutcome { key, outcome };
        self.journal.keep_outcome(&kept)?;
        Ok(kept.outcome)
    }
}

/// The replies of these operations, one for each call, with one space between two.
///
/// # Errors
///
/// Memory was refused.
fn reply_text(
    alloc: Global,
    store: &Store<Object>,
    calls: &[AttemptCall],
    operations: &[Operation],
) -> Result<ReplyText, AllocError>
    ensures { IfOk result (λ text. text ≡ reply_text store.now (asked_calls calls.now) operations.now) }
{
    let mut text = Vec::new(alloc);
    for at in 0..calls.len().min(operations.len()) {
        let op = op_at(store, calls[at].at, operations[at]);
        add_word(&mut text, at == 0, &op)?;
    }
    Ok(ReplyText::new(text))
}

/// One more reply, behind a space where it isn't the first.
///
/// # Errors
///
/// Memory was refused.
fn add_word(text: &mut Vec<u8>, is_first: bool, op: &Option<Op>) -> Result<(), AllocError>
    ensures { OnOk result (text.new.items ≡ text.old.items ++ spaced_word is_first (reply_word op.now)) }
{
    if !is_first {
        text.push(b' ')?;
    }
    if let Some(op) = op {
        text.extend_from_slice(op.reply.as_bytes())?;
    }
    Ok(())
}

/// Operation k of the object at x, where its type has it.
pub fn op_at(store: &Store<Object>, x: u32, k: Operation) -> Option<Op>
    ensures { result ≡ op_of_object store.now x k }
{
    let checked = store.checked(x)?;
    checked.op(k)
}
