//! Rollbacks of transactions, which are denied to one that is prepared.

ghost use Rattle.std.specs.Prelude.{◌≡◌, IfOk, OnOk, false};
ghost use Rattle.journal.specs.Journal.{Clean};
ghost use Rattle.serial_order.specs.declared.command.Command.TheVariants as command;
ghost use Rattle.store_laws.specs.Stored.{MayStep};
ghost use Rattle.durable_store.specs.Durable.{IsDurable, KeepsSettled, OutcomesStay, WritesSince, is_prepared};
ghost use Rattle.durable_store.specs.Held.{Unless};

use crate::denial::{Denial, unless_refused};
use crate::durable::Durable;
use journal::JournalError;
use serial_order::Refusal;
use sqlite_trees::store::Alter;
use store::steps_are_retraced;

impl<S: Alter> Durable<S> {
    /// Strikes the last n operations of transaction t, as the store's `rollback`, unless t is prepared. Its event is written, and a
    /// crash may still take it away.
    ///
    /// # Errors
    ///
    /// As `begin`. Why it isn't done is inside, and nothing has changed.
    pub fn rollback(&mut self, t: u32, n: u32) -> Result<Result<(), Denial>, JournalError>
        requires { IsDurable S.Store self.old }
        ensures sound { OnOk result (IsDurable S.Store self.new) }
        ensures step { IfOk result (λ r. Unless (is_prepared self.old t) self.old.store (λ r. MayStep self.old.store 0 (command.Rollback t n) r self.new.store) r self.new.store) }
        ensures prepared { OnOk result (self.new.prepared ≡ self.old.prepared) }
        ensures life { self.new.journal.header ≡ self.old.journal.header }
        ensures written { OnOk result (WritesSince S.Store self.old self.new) }
        ensures settled { OnOk result (KeepsSettled S.Store self.old self.new) }
        ensures clean { Clean S.Store self.new.journal → Clean S.Store self.old.journal }
        ensures crash { OutcomesStay S.Store self.old self.new }
    {
        if self.is_prepared(t) {
            return Ok(Err(Denial::Prepared));
        }
        let came = self.rollback_now(t, n)?;
        Ok(unless_refused(came))
    }

    /// As `rollback`, of a transaction that isn't prepared.
    ///
    /// # Errors
    ///
    /// As `begin`.
    fn rollback_now(&mut self, t: u32, n: u32) -> Result<Result<(), Refusal>, JournalError>
        requires sound { IsDurable S.Store self.old }
        requires free { is_prepared self.old t ≡ false }
        ensures sound { OnOk result (IsDurable S.Store self.new) }
        ensures prepared { OnOk result (self.new.prepared ≡ self.old.prepared) }
        ensures step { IfOk result (λ r. MayStep self.old.store 0 (command.Rollback t n) r self.new.store) }
        ensures life { self.new.journal.header ≡ self.old.journal.header }
        ensures written { OnOk result (WritesSince S.Store self.old self.new) }
        ensures settled { OnOk result (KeepsSettled S.Store self.old self.new) }
        ensures clean { Clean S.Store self.new.journal → Clean S.Store self.old.journal }
        ensures crash { OutcomesStay S.Store self.old self.new }
    {
        steps_are_retraced();
        let count = self.store.event_count();
        let rolled_back = self.store.rollback(0, t, n);
        self.write_since(count)?;
        Ok(rolled_back)
    }
}
