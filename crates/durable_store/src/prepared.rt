//! Transactions that are prepared: nothing but a decision ends them, and they go over into the next epoch.

ghost use Rattle.std.specs.Prelude.{◌≡◌, ◌∷◌, [], IfErr, IfOk, None, OnOk, Some};
ghost use Rattle.sqlite_trees.specs.Tree.{Trees};
ghost use Rattle.journal.specs.Contents.{with_prepared};
ghost use Rattle.journal.specs.Journal.{Clean, IsJournal, ShowsCommit, durable, may_leave, written};
ghost use Rattle.durable_store.specs.Durable.{IsDurable, KeepsSettled, OutcomesStay, kinds};
ghost use Rattle.durable_store.specs.Epochs.{GoesOver, LeavesEpoch, renewed_with, with_all_prepared};
ghost use Rattle.durable_store.specs.Held.{first_passing, has_key};
ghost use Rattle.journal.specs.declared.prepared_row.Prepared.{Prepared};
ghost use Rattle.durable_store.specs.Votes.{Decides, EndsPrepared, IsDecidedElse, Votes, agrees, decided_outcome};
ghost use Rattle.durable_store.specs.Keys.{IsFree};

use crate::durable::Durable;
use crate::ends::end_in;
use crate::held_list::{of_transaction, remove_transaction, under_key};
use crate::keyed::KeyState;
use crate::next_store::{moved_over, next_store};
use crate::votes::{Decision, Verdict, Vote};
use journal::{Journal, JournalError, Outcome, Prepared, ReplyText};
use sqlite_trees::store::Alter;
use std::alloc::{AllocError, Global};
use store::steps_are_retraced;
use table_checker::at_is_strong;
use transaction_key::TransactionKey;

impl<S: Alter> Durable<S> {
    /// Prepares an open transaction under a key: from the next `settle` on it is open until it is decided, whatever happens.
    /// `prepared` has its number, the name that its client has, and until when that waits, at which the store doesn't look.
    ///
    /// # Errors
    ///
    /// The file failed, or memory was refused for it. Why it isn't prepared is inside, in this order: it isn't open; it is
    /// prepared under another key; another one is under this key, or the key's place is another key's; or the key is known.
    pub fn prepare(&mut self, alloc: Global, prepared: Prepared) -> Result<Vote, JournalError>
        requires { IsDurable S.Store self.old }
        ensures votes { IfOk result (λ vote. Clean S.Store self.new.journal → Votes self.old.store (written S.Store self.old.journal) prepared vote (written S.Store self.new.journal)) }
        ensures sound { OnOk result (IsDurable S.Store self.new) }
        ensures store { self.new.store ≡ self.old.store }
        ensures life { self.new.journal.header ≡ self.old.journal.header }
        ensures settled { OnOk result (KeepsSettled S.Store self.old self.new) }
        ensures clean { Clean S.Store self.new.journal → Clean S.Store self.old.journal }
        ensures crash { OutcomesStay S.Store self.old self.new }
    {
        if !self.store.is_open(prepared.number) {
            return Ok(Vote::NotOpen);
        }
        if let Some(was) = of_transaction(&self.prepared, prepared.number) {
            if was.key == prepared.key {
                return Ok(Vote::Again);
            }
            return Ok(Vote::Otherwise);
        }
        match self.state_of(alloc, &prepared.key)? {
            KeyState::Free => {}
            KeyState::Known(outcome) => return Ok(Vote::Known(outcome)),
            KeyState::Prepared => return Ok(Vote::KeyInUse),
            KeyState::Taken => return Ok(Vote::Taken),
        }
        self.journal.prepare(&prepared)?;
        self.prepared.push(prepared)?;
        Ok(Vote::Prepared)
    }

    /// Decides what becomes of the transaction that is prepared under a key. What was decided is answered the same each time
    /// while it is kept; to abort under a key that isn't known keeps that it is aborted, so that none is prepared or commits
    /// under it later. A crash may still take it away: whoever asks is answered after `settle` only.
    ///
    /// # Errors
    ///
    /// The file failed, or memory was refused for it.
    pub fn decide(
        &mut self,
        alloc: Global,
        key: TransactionKey,
        decision: Decision,
    ) -> Result<Verdict, JournalError>
        requires { IsDurable S.Store self.old }
        ensures decides { IfOk result (λ verdict. Clean S.Store self.new.journal
            → Decides self.old.store self.new.store (written S.Store self.old.journal) (written S.Store self.new.journal) key decision verdict) }
        ensures sound { OnOk result (IsDurable S.Store self.new) }
        ensures life { self.new.journal.header ≡ self.old.journal.header }
        ensures settled { OnOk result (KeepsSettled S.Store self.old self.new) }
        ensures clean { Clean S.Store self.new.journal → Clean S.Store self.old.journal }
        ensures crash { OutcomesStay S.Store self.old self.new }
    {
        if let Some(prepared) = under_key(&self.prepared, &key) {
            let t = prepared.number;
            self.end_prepared(alloc, t, key, decision)?;
            return Ok(Verdict::Decided);
        }
        match self.state_of(alloc, &key)? {
            KeyState::Known(outcome) => {
                if agrees(decision, &outcome) {
                    return Ok(Verdict::Decided);
                }
                Ok(Verdict::Otherwise(outcome))
            }
            KeyState::Free => self.decide_unknown(key, decision),
            // (nobody is prepared under it)
            KeyState::Prepared | KeyState::Taken => Ok(Verdict::Taken),
        }
    }

    /// Begins another epoch, in another life. Where the yes of each object's type is strong, all that is open goes over into it,
    /// and no later answer can tell it; else what is prepared goes over, and what else is open is let go, as by an abort. What
    /// goes over begins there by the numbers 0, 1, 2 and so on, in the order of the numbers before, and what survives of it is
    /// done again. The file begins anew at the committed states, with these events, and with what is prepared by its new
    /// numbers, all of it in one commit. Outcomes of keys are let go in it since which as many were kept as stay at least.
    ///
    /// # Errors
    ///
    /// The file failed, or memory was refused for it. Where memory is refused before anything changes, that is inside.
    pub fn renew(self, alloc: Global) -> (Durable<S>, Result<Result<(), AllocError>, JournalError>)
        requires { IsDurable S.Store self }
        ensures sound { OnOk result.1 (IsDurable S.Store result.0) }
        ensures store { IfOk result.1 (λ r. OnOk r (GoesOver [] self.store self.prepared.items result.0.store result.0.prepared.items)) }
        ensures refused { IfOk result.1 (λ r. IfErr r (λ why. result.0 ≡ self)) }
        ensures durable { IfOk result.1 (λ r. OnOk r (Clean S.Store result.0.journal → durable S.Store result.0.journal ≡ renewed_with (written S.Store self.journal) result.0.store.types (kinds result.0.store.history) result.0.prepared.items)) }
        ensures shows { IfOk result.1 (λ r. OnOk r (ShowsCommit S.Store result.0.journal)) }
        ensures last { IfOk result.1 (λ r. OnOk r (Clean S.Store result.0.journal → (written S.Store self.journal).headers ≡ self.journal.header ∷ [])) }
        ensures clean { Clean S.Store result.0.journal → Clean S.Store self.journal }
        ensures crash { LeavesEpoch S.Store self result.0 }
    {
        at_is_strong();
        let moved = match moved_over(alloc, &self.store, &self.prepared, self.strong) {
            Ok(moved) => moved,
            Err(refused) => return (self, Ok(Err(refused))),
        };
        let Durable {
            store,
            journal,
            names,
            prepared,
            strong,
        } = self;
        match next_store(alloc, store, strong, &moved.those, Vec::new(alloc)) {
            Ok(store) => {
                let mut ahead = Durable {
                    store,
                    journal,
                    names,
                    prepared: moved.prepared,
                    strong,
                };
                match ahead.write_epoch(alloc) {
                    Ok(()) => (ahead, Ok(Ok(()))),
                    Err(error) => (ahead, Err(error)),
                }
            }
            Err((store, _)) => {
                let durable = Durable {
                    store,
                    journal,
                    names,
                    prepared,
                    strong,
                };
                (durable, Ok(Err(AllocError)))
            }
        }
    }

    /// Ends transaction t, which is prepared under this key, and keeps what became of it.
    ///
    /// # Errors
    ///
    /// The file failed, or memory was refused for it.
    fn end_prepared(
        &mut self,
        alloc: Global,
        t: u32,
        key: TransactionKey,
        decision: Decision,
    ) -> Result<(), JournalError>
        requires sound { IsDurable S.Store self.old }
        requires there { (p : Prepared) × (first_passing (has_key key) self.old.prepared.items ≡ Some p) × (p.number ≡ t) }
        ensures ends { OnOk result (Clean S.Store self.new.journal → EndsPrepared self.old.store self.new.store (written S.Store self.old.journal) (written S.Store self.new.journal) key decision) }
        ensures sound { OnOk result (IsDurable S.Store self.new) }
        ensures life { self.new.journal.header ≡ self.old.journal.header }
        ensures settled { OnOk result (KeepsSettled S.Store self.old self.new) }
        ensures clean { Clean S.Store self.new.journal → Clean S.Store self.old.journal }
        ensures crash { OutcomesStay S.Store self.old self.new }
    {
        steps_are_retraced();
        let count = self.store.event_count();
        // (it is open, so it isn't refused)
        let _ = end_in(&mut self.store, t, decision);
        remove_transaction(&mut self.prepared, t);
        self.write_since(count)?;
        self.keep(key, outcome_of(alloc, decision))?;
        Ok(())
    }

    /// Decides under a key that isn't known, under which nobody is prepared.
    ///
    /// # Errors
    ///
    /// The file failed, or memory was refused for it.
    fn decide_unknown(
        &mut self,
        key: TransactionKey,
        decision: Decision,
    ) -> Result<Verdict, JournalError>
        requires sound { IsDurable S.Store self.old }
        requires free { Clean S.Store self.old.journal → IsFree (written S.Store self.old.journal) key }
        ensures decides { IfOk result (λ verdict. Clean S.Store self.new.journal
            → Decides self.old.store self.new.store (written S.Store self.old.journal) (written S.Store self.new.journal) key decision verdict) }
        ensures sound { OnOk result (IsDurable S.Store self.new) }
        ensures store { self.new.store ≡ self.old.store }
        ensures prepared { self.new.prepared ≡ self.old.prepared }
        ensures life { self.new.journal.header ≡ self.old.journal.header }
        ensures settled { OnOk result (KeepsSettled S.Store self.old self.new) }
        ensures clean { Clean S.Store self.new.journal → Clean S.Store self.old.journal }
        ensures crash { OutcomesStay S.Store self.old self.new }
    {
        match decision {
            Decision::Commit => Ok(Verdict::Unknown),
            Decision::Abort => {
                self.keep(key, Outcome::Aborted)?;
                Ok(Verdict::Decided)
            }
        }
    }
}

/// What a key says after this decision.
fn outcome_of(alloc: Global, decision: Decision) -> Outcome
    ensures { result ≡ decided_outcome decision }
{
    match decision {
        Decision::Commit => Outcome::Committed(ReplyText::new(Vec::new(alloc))),
        Decision::Abort => Outcome::Aborted,
    }
}

/// Whether an outcome is of this decision.
fn agrees(decision: Decision, outcome: &Outcome) -> bool
    ensures { result ≡ agrees decision outcome.now }
{
    match (decision, outcome) {
        (Decision::Commit, Outcome::Committed(_)) => true,
        (Decision::Abort, Outcome::Aborted) => true,
        _ => false,
    }
}

/// Writes that these transactions are prepared, one after another.
///
/// # Errors
///
/// The file failed, or memory was refused for it.
pub(crate) fn prepare_all<S: Alter>(
    journal: &mut Journal<S>,
    those: &[Prepared],
) -> Result<(), JournalError>
    requires { IsJournal S.Store journal.old }
    ensures kept { OnOk result (IsJournal S.Store journal.new) }
    ensures written { OnOk result (Clean S.Store journal.new → written S.Store journal.new ≡ with_all_prepared (written S.Store journal.old) those.now) }
    ensures durable { OnOk result (Clean S.Store journal.new → durable S.Store journal.new ≡ durable S.Store journal.old) }
    ensures header { journal.new.header ≡ journal.old.header }
    ensures clean { Clean S.Store journal.new → Clean S.Store journal.old }
    ensures crash { (db : Trees) → may_leave S.Store journal.new db → may_leave S.Store journal.old db }
{
    for prepared in those {
        journal.prepare(prepared)?;
    }
    Ok(())
}
