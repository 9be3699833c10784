//! Requests under keys, which are done once.

ghost use Rattle.std.specs.Prelude.{◌≡◌, IfOk, OnOk};
ghost use Rattle.journal.specs.Journal.{Clean, written};
ghost use Rattle.durable_store.specs.Durable.{IsDurable};
ghost use Rattle.request_text.specs.declared.request.Request.TheVariants as request;
ghost use Rattle.serving.specs.Follows.{LeavesWritten};
ghost use Rattle.serving.specs.Keys.{DoesCommitUnder, DoesDoUnder, DoesOutcome, commit_under_answer, committed_before, do_under_answer, done_before, draining_under, kept_by, outcome_answer, outcomes_after, unknown_under};
ghost use Rattle.serving.specs.Server.{KeepsAll, StaysInEpoch, begins_until};

use crate::answer_line::{AnswerLine, KeyRefusal};
use crate::names::{Names, denied_answer, not_open};
use crate::session::{Session, is_full};
use crate::votes::key_refused;
use crate::whole::ended_answer;
use durable_store::{Denial, KeyState, Keyed, Unfinished};
use journal::{JournalError, Outcome};
use request_text::{AskedCall, TransactionName};
use sqlite_trees::store::Alter;
use std::alloc::Global;
use transaction_key::TransactionKey;

impl<S: Alter> Session<S> {
    /// Commits a transaction under a key, or aborts it where its work was done before. It is answered only once it is settled,
    /// or what is known of the key.
    ///
    /// # Errors
    ///
    /// As `ask`.
    pub(crate) fn commit_under(
        &mut self,
        alloc: Global,
        t: TransactionName,
        key: TransactionKey,
    ) -> Result<AnswerLine, JournalError>
        requires { IsDurable S.Store self.old.store }
        ensures does { IfOk result (λ a. DoesCommitUnder (Clean S.Store self.new.store.journal) self.old.names (written S.Store self.old.store.journal) self.old.store.prepared.items self.old.store.store t key a self.new.store.store) }
        ensures keys { IfOk result (λ a. Clean S.Store self.new.store.journal → (written S.Store self.new.store.journal).outcomes ≡ outcomes_after (kept_by (request.CommitUnder t key) a) (written S.Store self.old.store.journal).outcomes) }
        ensures rows { OnOk result (Clean S.Store self.new.store.journal → (written S.Store self.new.store.journal).prepared ≡ (written S.Store self.old.store.journal).prepared) }
        ensures stays_in_epoch { OnOk result (StaysInEpoch S.Store self.old self.new) }
        ensures waits { self.new.waiting ≡ self.old.waiting }
        ensures clean { Clean S.Store self.new.store.journal → Clean S.Store self.old.store.journal }
        ensures crash { LeavesWritten S.Store self.old.store self.new.store }
    {
        let Some(number) = self.names.number_of(t) else {
            let known = self.store.state_of(alloc, &key)?;
            return Ok(unknown_under(known));
        };
        let came = self.store.commit_under(alloc, number, key)?;
        Ok(commit_under_answer(came))
    }

    /// Does a whole transaction of these calls under a key, but for an epoch that is full. It is answered only once it is
    /// settled, or what is known of the key.
    ///
    /// # Errors
    ///
    /// As `ask`.
    pub(crate) fn attempt_under(
        &mut self,
        alloc: Global,
        calls: &[AskedCall],
        key: TransactionKey,
    ) -> Result<AnswerLine, JournalError>
        requires { IsDurable S.Store self.old.store }
        ensures does { IfOk result (λ a. DoesDoUnder (Clean S.Store self.new.store.journal) (begins_until self.old) self.old.names (written S.Store self.old.store.journal) self.old.store.store calls.now key a self.new.store.store) }
        ensures keys { IfOk result (λ a. Clean S.Store self.new.store.journal → (written S.Store self.new.store.journal).outcomes ≡ outcomes_after (kept_by (request.DoUnder key) a) (written S.Store self.old.store.journal).outcomes) }
        ensures rows { OnOk result (Clean S.Store self.new.store.journal → (written S.Store self.new.store.journal).prepared ≡ (written S.Store self.old.store.journal).prepared) }
        ensures stays_in_epoch { OnOk result (StaysInEpoch S.Store self.old self.new) }
        ensures waits { self.new.waiting ≡ self.old.waiting }
        ensures clean { Clean S.Store self.new.store.journal → Clean S.Store self.old.store.journal }
        ensures crash { LeavesWritten S.Store self.old.store self.new.store }
    {
        let limit = self.limit();
        if is_full(self.store.store(), limit) {
            let known = self.store.state_of(alloc, &key)?;
            return Ok(draining_under(known));
        }
        let made = self.calls_at(alloc, calls)?;
        let came = self.store.attempt_under(alloc, &made, key)?;
        Ok(do_under_answer(&self.names, came))
    }

    /// What became of the transaction that has this key. It is answered only once that is settled.
    ///
    /// # Errors
    ///
    /// As `ask`.
    pub(crate) fn outcome(
        &mut self,
        alloc: Global,
        key: TransactionKey,
    ) -> Result<AnswerLine, JournalError>
        requires { IsDurable S.Store self.old.store }
        ensures does { IfOk result (λ a. DoesOutcome (Clean S.Store self.new.store.journal) (written S.Store self.old.store.journal) self.old.store.store key a self.new.store.store) }
        ensures keyless { OnOk result (KeepsAll S.Store self.old.store self.new.store) }
        ensures stays_in_epoch { OnOk result (StaysInEpoch S.Store self.old self.new) }
        ensures waits { self.new.waiting ≡ self.old.waiting }
        ensures clean { Clean S.Store self.new.store.journal → Clean S.Store self.old.store.journal }
        ensures crash { LeavesWritten S.Store self.old.store self.new.store }
    {
        let known = self.store.state_of(alloc, &key)?;
        Ok(outcome_answer(known))
    }
}

/// What a commit is answered under a key whose transaction came to this.
fn committed_before(known: Outcome) -> AnswerLine
    ensures { result ≡ committed_before known }
{
    match known {
        Outcome::Committed(_) => AnswerLine::Committed,
        Outcome::Aborted => AnswerLine::KeyRefused {
            why: KeyRefusal::Aborted,
        },
    }
}

/// What a commit under a key is answered.
fn commit_under_answer(came: Keyed<Denial>) -> AnswerLine
    ensures { result ≡ commit_under_answer came }
{
    match came {
        Keyed::Done(_) => AnswerLine::Committed,
        Keyed::Undone(why) => denied_answer(why),
        Keyed::Known(known) => committed_before(known),
        Keyed::Prepared => key_refused(KeyRefusal::Prepared),
        Keyed::Taken => key_refused(KeyRefusal::Taken),
    }
}

/// What one is answered that names a transaction that nobody has.
fn unknown_under(known: KeyState) -> AnswerLine
    ensures { result ≡ unknown_under known }
{
    match known {
        KeyState::Free => not_open(),
        KeyState::Known(known) => committed_before(known),
        KeyState::Prepared => key_refused(KeyRefusal::Prepared),
        KeyState::Taken => key_refused(KeyRefusal::Taken),
    }
}

/// What a whole transaction is answered under a key whose transaction came to this.
fn done_before(known: Outcome) -> AnswerLine
    ensures { result ≡ done_before known }
{
    match known {
        Outcome::Committed(replies) => AnswerLine::Replied { replies },
        Outcome::Aborted => AnswerLine::KeyRefused {
            why: KeyRefusal::Aborted,
        },
    }
}

/// What a whole transaction under a key is answered.
fn do_under_answer(names: &Names, came: Keyed<Unfinished>) -> AnswerLine
    ensures { result ≡ do_under_answer names.now came }
{
    match came {
        Keyed::Done(kept) => done_before(kept),
        Keyed::Undone(Unfinished::Ended { at, how }) => ended_answer(names, at, how),
        Keyed::Undone(Unfinished::NotBegun(refusal)) => AnswerLine::Refused { refusal },
        Keyed::Known(known) => done_before(known),
        Keyed::Prepared => key_refused(KeyRefusal::Prepared),
        Keyed::Taken => key_refused(KeyRefusal::Taken),
    }
}

/// What one is answered where no transaction begins.
fn draining_under(known: KeyState) -> AnswerLine
    ensures { result ≡ draining_under known }
{
    match known {
        KeyState::Free => AnswerLine::Draining,
        KeyState::Known(known) => done_before(known),
        KeyState::Prepared => key_refused(KeyRefusal::Prepared),
        KeyState::Taken => key_refused(KeyRefusal::Taken),
    }
}

/// What is told of a key.
fn outcome_answer(known: KeyState) -> AnswerLine
    ensures { result ≡ outcome_answer known }
{
    match known {
        KeyState::Known(known) => AnswerLine::OutcomeIs {
            outcome: Some(known),
        },
        KeyState::Prepared => AnswerLine::OutcomePrepared,
        KeyState::Free | KeyState::Taken => AnswerLine::OutcomeIs { outcome: None },
    }
}
