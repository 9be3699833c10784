//! How many outcomes of transactions that had keys stay.

ghost use Rattle.std.specs.Prelude.{◌≡◌, OnOk};
ghost use Rattle.journal.specs.Contents.{with_least};
ghost use Rattle.journal.specs.Journal.{Clean, written};
ghost use Rattle.durable_store.specs.Durable.{IsDurable, KeepsSettled, OutcomesStay};

use crate::durable::Durable;
use journal::JournalError;
use sqlite_trees::store::Alter;

impl<S: Alter> Durable<S> {
    /// How many of the last outcomes stay at least.
    pub fn least_outcomes(&self) -> u64
        ensures { result ≡ self.now.journal.numbers.least }
    {
        self.journal.least_outcomes()
    }

    /// Lets at least this many of the last outcomes stay from now on: each end of an epoch lets others go. A crash may still
    /// take it away.
    ///
    /// # Errors
    ///
    /// The file failed, or memory was refused for it.
    pub fn keep_at_least(&mut self, least: u32) -> Result<(), JournalError>
        requires { IsDurable S.Store self.old }
        ensures sound { OnOk result (IsDurable S.Store self.new) }
        ensures store { self.new.store ≡ self.old.store }
        ensures prepared { self.new.prepared ≡ self.old.prepared }
        ensures life { self.new.journal.header ≡ self.old.journal.header }
        ensures written { OnOk result (Clean S.Store self.new.journal → written S.Store self.new.journal ≡ with_least (written S.Store self.old.journal) least) }
        ensures settled { OnOk result (KeepsSettled S.Store self.old self.new) }
        ensures clean { Clean S.Store self.new.journal → Clean S.Store self.old.journal }
        ensures crash { OutcomesStay S.Store self.old self.new }
    {
        self.journal.keep_at_least(least)?;
        Ok(())
    }
}
