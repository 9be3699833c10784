//! Requests about transactions that are prepared.

ghost use Rattle.std.specs.Prelude.{◌≡◌, IfOk, OnOk};
ghost use Rattle.journal.specs.Journal.{Clean, written};
ghost use Rattle.durable_store.specs.Durable.{IsDurable};
ghost use Rattle.request_text.specs.declared.request.Request.TheVariants as request;
ghost use Rattle.serving.specs.Follows.{LeavesWritten};
ghost use Rattle.serving.specs.Keys.{kept_by, outcomes_after};
ghost use Rattle.serving.specs.Prepared.{DoesDecide, DoesPrepare, decision_of, prepared_after, verdict_answer, vote_answer};
ghost use Rattle.serving.specs.Server.{KeepsAll, StaysInEpoch};

use crate::answer_line::{AnswerLine, KeyRefusal};
use crate::names::not_open;
use crate::session::Session;
use durable_store::{Decision, Verdict, Vote};
use journal::{GivenName, JournalError, Outcome, Prepared};
use request_text::TransactionName;
use sqlite_trees::store::Alter;
use std::alloc::Global;
use transaction_key::TransactionKey;

impl<S: Alter> Session<S> {
    /// Prepares a transaction under a key. It is answered only once it is settled, or what is known of the key.
    ///
    /// # Errors
    ///
    /// As `ask`.
    pub(crate) fn prepare(
        &mut self,
        alloc: Global,
        t: TransactionName,
        key: TransactionKey,
        until: u32,
    ) -> Result<AnswerLine, JournalError>
        requires { IsDurable S.Store self.old.store }
        ensures does { IfOk result (λ a. DoesPrepare (Clean S.Store self.new.store.journal) self.old.names (written S.Store self.old.store.journal) self.old.store.store t key until a self.new.store.store) }
        ensures keys { OnOk result (Clean S.Store self.new.store.journal → (written S.Store self.new.store.journal).outcomes ≡ (written S.Store self.old.store.journal).outcomes) }
        ensures rows { IfOk result (λ a. Clean S.Store self.new.store.journal → (written S.Store self.new.store.journal).prepared ≡ prepared_after self.old.names (request.Prepare t key until) a (written S.Store self.old.store.journal).prepared) }
        ensures stays_in_epoch { OnOk result (StaysInEpoch S.Store self.old self.new) }
        ensures waits { self.new.waiting ≡ self.old.waiting }
        ensures clean { Clean S.Store self.new.store.journal → Clean S.Store self.old.store.journal }
        ensures crash { LeavesWritten S.Store self.old.store self.new.store }
    {
        let Some(number) = self.names.number_of(t) else {
            return Ok(not_open());
        };
        let given = GivenName {
            life: t.life,
            number: t.number,
        };
        let prepared = Prepared {
            key,
            given,
            number,
            until,
        };
        let vote = self.store.prepare(alloc, prepared)?;
        Ok(vote_answer(vote))
    }

    /// Decides what becomes of the transaction that is prepared under a key. It is answered only once it is settled.
    ///
    /// # Errors
    ///
    /// As `ask`.
    pub(crate) fn decide(
        &mut self,
        alloc: Global,
        key: TransactionKey,
        decision: request_text::Decision,
    ) -> Result<AnswerLine, JournalError>
        requires { IsDurable S.Store self.old.store }
        ensures does { IfOk result (λ a. DoesDecide (Clean S.Store self.new.store.journal) (written S.Store self.old.store.journal) self.old.store.store key (decision_of decision) a self.new.store.store) }
        ensures keys { IfOk result (λ a. Clean S.Store self.new.store.journal → (written S.Store self.new.store.journal).outcomes ≡ outcomes_after (kept_by (request.Decide key decision) a) (written S.Store self.old.store.journal).outcomes) }
        ensures rows { OnOk result (Clean S.Store self.new.store.journal → (written S.Store self.new.store.journal).prepared ≡ (written S.Store self.old.store.journal).prepared) }
        ensures stays_in_epoch { OnOk result (StaysInEpoch S.Store self.old self.new) }
        ensures waits { self.new.waiting ≡ self.old.waiting }
        ensures clean { Clean S.Store self.new.store.journal → Clean S.Store self.old.store.journal }
        ensures crash { LeavesWritten S.Store self.old.store self.new.store }
    {
        let verdict = self.store.decide(alloc, key, decision_of(decision))?;
        Ok(verdict_answer(verdict))
    }
}

/// What a `prepare` is answered.
fn vote_answer(vote: Vote) -> AnswerLine
    ensures { result ≡ vote_answer vote }
{
    match vote {
        Vote::Prepared => AnswerLine::Voted,
        Vote::Again => AnswerLine::VotedBefore,
        Vote::NotOpen => not_open(),
        Vote::Otherwise => AnswerLine::IsPrepared,
        Vote::KeyInUse => key_refused(KeyRefusal::Prepared),
        Vote::Known(Outcome::Committed(_)) => key_refused(KeyRefusal::Committed),
        Vote::Known(Outcome::Aborted) => key_refused(KeyRefusal::Aborted),
        Vote::Taken => key_refused(KeyRefusal::Taken),
    }
}

/// What was asked.
fn decision_of(asked: request_text::Decision) -> Decision
    ensures { result ≡ decision_of asked }
{
    match asked {
        request_text::Decision::Commit => Decision::Commit,
        request_text::Decision::Abort => Decision::Abort,
    }
}

/// What a `decide` is answered.
fn verdict_answer(verdict: Verdict) -> AnswerLine
    ensures { result ≡ verdict_answer verdict }
{
    match verdict {
        Verdict::Decided => AnswerLine::Decided,
        Verdict::Otherwise(_) => key_refused(KeyRefusal::Decided),
        Verdict::Unknown => key_refused(KeyRefusal::Unknown),
        Verdict::Taken => key_refused(KeyRefusal::Taken),
    }
}

/// That nothing is done under a key.
pub(crate) fn key_refused(why: KeyRefusal) -> AnswerLine
    ensures { result ≡ AnswerLine.KeyRefused why }
{
    AnswerLine::KeyRefused { why }
}
