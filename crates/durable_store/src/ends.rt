//! Ends of transactions, which are denied to one that is prepared.

ghost use Rattle.std.specs.Prelude.{◌≡◌, IfOk, OnOk, false};
ghost use Rattle.journal.specs.Journal.{Clean};
ghost use Rattle.serial_order.specs.declared.command.Command.TheVariants as command;
ghost use Rattle.store_laws.specs.Stored.{Steps};
ghost use Rattle.durable_store.specs.Durable.{IsDurable, KeepsSettled, OutcomesStay, WritesSince, is_prepared};
ghost use Rattle.durable_store.specs.Held.{Unless};
ghost use Rattle.durable_store.specs.Votes.{decided_command};

use crate::denial::{Denial, unless_refused};
use crate::durable::Durable;
use crate::votes::Decision;
use journal::JournalError;
use objects::Object;
use serial_order::Refusal;
use sqlite_trees::store::Alter;
use store::{Store, steps_are_retraced};

impl<S: Alter> Durable<S> {
    /// Commits transaction t, as the store's `commit`, unless t is prepared. Its event is written, and a crash may still take it away:
    /// the client is answered after `settle` only.
    ///
    /// # Errors
    ///
    /// As `begin`. Why it isn't done is inside, and nothing has changed.
    pub fn commit(&mut self, t: u32) -> Result<Result<(), Denial>, JournalError>
        requires { IsDurable S.Store self.old }
        ensures sound { OnOk result (IsDurable S.Store self.new) }
        ensures step { IfOk result (λ r. Unless (is_prepared self.old t) self.old.store (λ r. Steps self.old.store 0 (command.Commit t) r self.new.store) r self.new.store) }
        ensures prepared { OnOk result (self.new.prepared ≡ self.old.prepared) }
        ensures life { self.new.journal.header ≡ self.old.journal.header }
        ensures written { OnOk result (WritesSince S.Store self.old self.new) }
        ensures settled { OnOk result (KeepsSettled S.Store self.old self.new) }
        ensures clean { Clean S.Store self.new.journal → Clean S.Store self.old.journal }
        ensures crash { OutcomesStay S.Store self.old self.new }
    {
        self.end(t, Decision::Commit)
    }

    /// Aborts transaction t, as the store's `abort`, unless t is prepared. Its event is written, and a crash may still take it away.
    ///
    /// # Errors
    ///
    /// As `begin`. Why it isn't done is inside, and nothing has changed.
    pub fn abort(&mut self, t: u32) -> Result<Result<(), Denial>, JournalError>
        requires { IsDurable S.Store self.old }
        ensures sound { OnOk result (IsDurable S.Store self.new) }
        ensures step { IfOk result (λ r. Unless (is_prepared self.old t) self.old.store (λ r. Steps self.old.store 0 (command.Abort t) r self.new.store) r self.new.store) }
        ensures prepared { OnOk result (self.new.prepared ≡ self.old.prepared) }
        ensures life { self.new.journal.header ≡ self.old.journal.header }
        ensures written { OnOk result (WritesSince S.Store self.old self.new) }
        ensures settled { OnOk result (KeepsSettled S.Store self.old self.new) }
        ensures clean { Clean S.Store self.new.journal → Clean S.Store self.old.journal }
        ensures crash { OutcomesStay S.Store self.old self.new }
    {
        self.end(t, Decision::Abort)
    }

    /// Ends transaction t so, unless it is prepared.
    ///
    /// # Errors
    ///
    /// As `begin`.
    fn end(&mut self, t: u32, how: Decision) -> Result<Result<(), Denial>, JournalError>
        requires { IsDurable S.Store self.old }
        ensures sound { OnOk result (IsDurable S.Store self.new) }
        ensures step { IfOk result (λ r. Unless (is_prepared self.old t) self.old.store (λ r. Steps self.old.store 0 (decided_command how t) r self.new.store) r self.new.store) }
        ensures prepared { OnOk result (self.new.prepared ≡ self.old.prepared) }
        ensures life { self.new.journal.header ≡ self.old.journal.header }
        ensures written { OnOk result (WritesSince S.Store self.old self.new) }
        ensures settled { OnOk result (KeepsSettled S.Store self.old self.new) }
        ensures clean { Clean S.Store self.new.journal → Clean S.Store self.old.journal }
        ensures crash { OutcomesStay S.Store self.old self.new }
    {
        if self.is_prepared(t) {
            return Ok(Err(Denial::Prepared));
        }
        let came = self.end_now(t, how)?;
        Ok(unless_refused(came))
    }

    /// As `end`, of a transaction that isn't prepared.
    ///
    /// # Errors
    ///
    /// As `begin`.
    fn end_now(&mut self, t: u32, how: Decision) -> Result<Result<(), Refusal>, JournalError>
        requires sound { IsDurable S.Store self.old }
        requires free { is_prepared self.old t ≡ false }
        ensures sound { OnOk result (IsDurable S.Store self.new) }
        ensures prepared { OnOk result (self.new.prepared ≡ self.old.prepared) }
        ensures step { IfOk result (λ r. Steps self.old.store 0 (decided_command how t) r self.new.store) }
        ensures life { self.new.journal.header ≡ self.old.journal.header }
        ensures written { OnOk result (WritesSince S.Store self.old self.new) }
        ensures settled { OnOk result (KeepsSettled S.Store self.old self.new) }
        ensures clean { Clean S.Store self.new.journal → Clean S.Store self.old.journal }
        ensures crash { OutcomesStay S.Store self.old self.new }
    {
        steps_are_retraced();
        let count = self.store.event_count();
        let ended = end_in(&mut self.store, t, how);
        self.write_since(count)?;
        Ok(ended)
    }
}

/// Ends transaction t.
pub(crate) fn end_in(store: &mut Store<Object>, t: u32, decision: Decision) -> Result<(), Refusal>
    ensures { Steps store.old 0 (decided_command decision t) result store.new }
{
    match decision {
        Decision::Commit => store.commit(0, t),
        Decision::Abort => store.abort(0, t),
    }
}
