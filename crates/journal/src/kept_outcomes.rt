//! What became of transactions that have keys: what a journal keeps of it, and lets go.

ghost use Rattle.std.specs.Prelude.{◌≡◌, ◌<◌, ◌≤◌, ◌+◌, IfOk, OnOk, false};
ghost use Rattle.sqlite_trees.specs.Tree.{Trees};
ghost use Rattle.transaction_key.specs.TransactionKey.{key_place};
ghost use Rattle.journal.specs.Contents.{newest_format, with_least, with_let_go, with_outcome};
ghost use Rattle.journal.specs.Journal.{Clean, IsJournal, IsNumbered, ShowsCommit, durable, may_leave, written};
ghost use Rattle.journal.specs.Numbers.{AreCounted};

use crate::header::FORMAT;
use crate::journal::Journal;
use crate::journal_error::JournalError;
use crate::numbers::{Numbers, are_counted, put_numbers, read_numbers};
use crate::outcome_index::{kept_at, staying};
use crate::outcome_row::{KeyedOutcome, put_outcome};
use crate::place_row::put_pointer;
use crate::swept_rows::{first_numbered, free_number, free_place, next_place};
use sqlite_trees::store::Store;
use std::alloc::Global;
use transaction_key::TransactionKey;

impl<S: Store> Journal<S> {
    /// Keeps what became of a transaction at its key's place, and nothing else there. A crash may still take it away. Also puts
    /// pointers of earlier ones into the index, and frees rows of those that are let go.
    ///
    /// # Errors
    ///
    /// `Foreign` where the file is of an older format, which the next life raises, or `Full` after 2^62 outcomes, and
    /// nothing changes; the file failed, or memory was refused: the journal isn't to be used any more.
    pub fn keep_outcome(&mut self, kept: &KeyedOutcome) -> Result<(), JournalError>
        requires { IsJournal S.Store self.old }
        ensures kept { OnOk result (IsJournal S.Store self.new) }
        ensures written { OnOk result (Clean S.Store self.new → written S.Store self.new ≡ with_outcome (written S.Store self.old) kept.now) }
        ensures durable { OnOk result (Clean S.Store self.new → durable S.Store self.new ≡ durable S.Store self.old) }
        ensures header { self.new.header ≡ self.old.header }
        ensures clean { Clean S.Store self.new → Clean S.Store self.old }
        ensures crash { (db : Trees) → may_leave S.Store self.new db → may_leave S.Store self.old db }
    {
        if self.header.format < FORMAT {
            return Err(JournalError::Foreign);
        }
        let numbers = Numbers {
            next: self.numbers.next.saturating_add(1),
            awaiting: self.numbers.awaiting.saturating_add(1),
            ..self.numbers
        };
        if self.numbers.next == 0 || !are_counted(numbers) {
            return Err(JournalError::Full);
        }
        self.write_outcome(kept, numbers)?;
        self.put_pointers()?;
        self.begin_round()?;
        self.sweep()
    }

    /// Writes what became of a transaction, as `keep_outcome`: these are the numbers then, which the next commit writes.
    ///
    /// # Errors
    ///
    /// The file failed, or memory was refused.
    fn write_outcome(&mut self, kept: &KeyedOutcome, numbers: Numbers) -> Result<(), JournalError>
        requires journal { IsJournal S.Store self.old }
        requires newest { newest_format ≤ self.old.header.format }
        requires some { 0 < self.old.numbers.next }
        requires counted { AreCounted numbers }
        requires next { numbers ≡ record self.old.numbers { next = self.old.numbers.next + 1; awaiting = self.old.numbers.awaiting + 1 } }
        ensures kept { OnOk result (IsJournal S.Store self.new) }
        ensures written { OnOk result (Clean S.Store self.new → written S.Store self.new ≡ with_outcome (written S.Store self.old) kept.now) }
        ensures durable { OnOk result (Clean S.Store self.new → durable S.Store self.new ≡ durable S.Store self.old) }
        ensures header { self.new.header ≡ self.old.header }
        ensures clean { Clean S.Store self.new → Clean S.Store self.old }
        ensures crash { (db : Trees) → may_leave S.Store self.new db → may_leave S.Store self.old db }
    {
        let number = self.numbers.next;
        let (store, row) = (&mut self.store, &mut self.row);
        put_outcome(store, kept, number, row)?;
        self.index.fresh.insert(kept.key.place(), number)?;
        self.index.uncounted = true;
        self.numbers = numbers;
        Ok(())
    }

    /// Writes the numbers, where outcomes were kept that their row doesn't count yet. A crash may still take it away.
    ///
    /// # Errors
    ///
    /// `Foreign` where the file is of an older format, or `Full` after 2^62 outcomes: in neither are outcomes kept; the file
    /// failed, or memory was refused. The journal isn't to be used any more.
    pub(crate) fn count_outcomes(&mut self) -> Result<(), JournalError>
        requires { IsJournal S.Store self.old }
        ensures kept { OnOk result (IsJournal S.Store self.new) }
        ensures counted { OnOk result (self.new.index.uncounted ≡ false) }
        ensures pending { self.new.pending ≡ self.old.pending }
        ensures written { OnOk result (Clean S.Store self.new → written S.Store self.new ≡ written S.Store self.old) }
        ensures durable { OnOk result (Clean S.Store self.new → durable S.Store self.new ≡ durable S.Store self.old) }
        ensures header { self.new.header ≡ self.old.header }
        ensures clean { Clean S.Store self.new → Clean S.Store self.old }
        ensures crash { (db : Trees) → may_leave S.Store self.new db → may_leave S.Store self.old db }
        ensures numbered { IsNumbered S.Store self.old → IsNumbered S.Store self.new }
    {
        if !self.index.uncounted {
            return Ok(());
        }
        if self.header.format < FORMAT {
            return Err(JournalError::Foreign);
        }
        if !are_counted(self.numbers) {
            return Err(JournalError::Full);
        }
        put_numbers(&mut self.store, self.numbers, &mut self.row)?;
        self.index.uncounted = false;
        Ok(())
    }

    /// Puts some pointers into the index: all where many outcomes await it.
    ///
    /// # Errors
    ///
    /// The file failed, or memory was refused: the journal isn't to be used any more.
    fn put_pointers(&mut self) -> Result<(), JournalError>
        requires journal { IsJournal S.Store self.old }
        requires newest { newest_format ≤ self.old.header.format }
        ensures kept { OnOk result (IsJournal S.Store self.new) }
        ensures written { OnOk result (Clean S.Store self.new → written S.Store self.new ≡ written S.Store self.old) }
        ensures durable { OnOk result (Clean S.Store self.new → durable S.Store self.new ≡ durable S.Store self.old) }
        ensures header { self.new.header ≡ self.old.header }
        ensures clean { Clean S.Store self.new → Clean S.Store self.old }
        ensures crash { (db : Trees) → may_leave S.Store self.new db → may_leave S.Store self.old db }
    {
        for _ in 0..self.index.pointers_to_put(self.numbers.awaiting) {
            self.put_pointer()?;
        }
        Ok(())
    }

    /// Puts the pointer of the next place into the index, where one is due.
    ///
    /// # Errors
    ///
    /// As `put_pointers`.
    fn put_pointer(&mut self) -> Result<(), JournalError>
        requires journal { IsJournal S.Store self.old }
        requires newest { newest_format ≤ self.old.header.format }
        ensures kept { OnOk result (IsJournal S.Store self.new) }
        ensures written { OnOk result (Clean S.Store self.new → written S.Store self.new ≡ written S.Store self.old) }
        ensures durable { OnOk result (Clean S.Store self.new → durable S.Store self.new ≡ durable S.Store self.old) }
        ensures header { self.new.header ≡ self.old.header }
        ensures clean { Clean S.Store self.new → Clean S.Store self.old }
        ensures crash { (db : Trees) → may_leave S.Store self.new db → may_leave S.Store self.old db }
    {
        match self.index.due.pop_first() {
            Some((place, number)) => put_pointer(&mut self.store, place, number, &mut self.row),
            None => Ok(()),
        }
    }

    /// Where the pointers of a round are put, and many outcomes came since or too many await: those before await the index no
    /// more, and the pointers of those since are due.
    ///
    /// # Errors
    ///
    /// As `put_pointers`.
    fn begin_round(&mut self) -> Result<(), JournalError>
        requires journal { IsJournal S.Store self.old }
        requires newest { newest_format ≤ self.old.header.format }
        ensures kept { OnOk result (IsJournal S.Store self.new) }
        ensures written { OnOk result (Clean S.Store self.new → written S.Store self.new ≡ written S.Store self.old) }
        ensures durable { OnOk result (Clean S.Store self.new → durable S.Store self.new ≡ durable S.Store self.old) }
        ensures header { self.new.header ≡ self.old.header }
        ensures clean { Clean S.Store self.new → Clean S.Store self.old }
        ensures crash { (db : Trees) → may_leave S.Store self.new db → may_leave S.Store self.old db }
    {
        if !self.index.is_put(self.numbers.awaiting) {
            return Ok(());
        }
        let numbers = Numbers {
            awaiting: self.numbers.next.saturating_sub(self.index.begun),
            ..self.numbers
        };
        if !are_counted(numbers) {
            return Err(JournalError::Full);
        }
        put_numbers(&mut self.store, numbers, &mut self.row)?;
        self.numbers = numbers;
        self.index.begin_round(numbers.next);
        self.index.uncounted = false;
        Ok(())
    }

    /// What is kept at the place of this key: of its transaction, or of one whose key has the same place.
    ///
    /// # Errors
    ///
    /// As `types`.
    pub fn outcome(
        &mut self,
        alloc: Global,
        key: &TransactionKey,
    ) -> Result<Option<KeyedOutcome>, JournalError>
        requires { IsJournal S.Store self.old }
        ensures found { IfOk result (λ found. Clean S.Store self.new → found ≡ (written S.Store self.old).outcomes.at (key_place key.now)) }
        ensures kept { OnOk result (IsJournal S.Store self.new) }
        ensures written { OnOk result (Clean S.Store self.new → written S.Store self.new ≡ written S.Store self.old) }
        ensures durable { OnOk result (Clean S.Store self.new → durable S.Store self.new ≡ durable S.Store self.old) }
        ensures header { self.new.header ≡ self.old.header }
        ensures shows { OnOk result (ShowsCommit S.Store self.old → ShowsCommit S.Store self.new) }
        ensures clean { Clean S.Store self.new → Clean S.Store self.old }
        ensures crash { (db : Trees) → may_leave S.Store self.new db → may_leave S.Store self.old db }
    {
        let numbers = self.numbers;
        let (store, row) = (&mut self.store, &mut self.row);
        let found = kept_at(alloc, store, numbers, &self.index, key.place(), row)?;
        Ok(staying(found, numbers.first))
    }

    /// How many of the last outcomes stay at least.
    pub fn least_outcomes(&self) -> u64
        ensures { result ≡ self.now.numbers.least }
    {
        self.numbers.least
    }

    /// Lets at least this many of the last outcomes stay from now on, where as many are kept: the next epochs let others go. A
    /// crash may still take it away.
    ///
    /// # Errors
    ///
    /// As `keep_outcome`.
    pub fn keep_at_least(&mut self, least: u32) -> Result<(), JournalError>
        requires { IsJournal S.Store self.old }
        ensures kept { OnOk result (IsJournal S.Store self.new) }
        ensures written { OnOk result (Clean S.Store self.new → written S.Store self.new ≡ with_least (written S.Store self.old) least) }
        ensures durable { OnOk result (Clean S.Store self.new → durable S.Store self.new ≡ durable S.Store self.old) }
        ensures header { self.new.header ≡ self.old.header }
        ensures clean { Clean S.Store self.new → Clean S.Store self.old }
        ensures crash { (db : Trees) → may_leave S.Store self.new db → may_leave S.Store self.old db }
    {
        if self.header.format < FORMAT {
            return Err(JournalError::Foreign);
        }
        let numbers = Numbers {
            least: least as u64,
            ..self.numbers
        };
        if !are_counted(numbers) {
            return Err(JournalError::Full);
        }
        put_numbers(&mut self.store, numbers, &mut self.row)?;
        self.numbers = numbers;
        self.index.uncounted = false;
        Ok(())
    }

    /// Lets outcomes go since which as many were kept as stay at least.
    ///
    /// # Errors
    ///
    /// The file failed, or memory was refused: the journal isn't to be used any more.
    pub(crate) fn let_go(&mut self) -> Result<(), JournalError>
        requires { IsJournal S.Store self.old }
        ensures kept { OnOk result (IsJournal S.Store self.new) }
        ensures written { OnOk result (Clean S.Store self.new → written S.Store self.new ≡ with_let_go (written S.Store self.old)) }
        ensures durable { OnOk result (Clean S.Store self.new → durable S.Store self.new ≡ durable S.Store self.old) }
        ensures header { self.new.header ≡ self.old.header }
        ensures clean { Clean S.Store self.new → Clean S.Store self.old }
        ensures crash { (db : Trees) → may_leave S.Store self.new db → may_leave S.Store self.old db }
    {
        self.count_outcomes()?;
        let found = read_numbers(&mut self.store, &mut self.row)?;
        let first = found.next.saturating_sub(found.least);
        if first <= found.first {
            return Ok(());
        }
        let numbers = Numbers { first, ..found };
        put_numbers(&mut self.store, numbers, &mut self.row)?;
        self.numbers = numbers;
        Ok(())
    }

    /// Frees the rows of outcomes that are let go, some at a time: looks at the next two places, and at the first two numbers.
    ///
    /// # Errors
    ///
    /// As `let_go`.
    fn sweep(&mut self) -> Result<(), JournalError>
        requires { IsJournal S.Store self.old }
        ensures kept { OnOk result (IsJournal S.Store self.new) }
        ensures written { OnOk result (Clean S.Store self.new → written S.Store self.new ≡ written S.Store self.old) }
        ensures durable { OnOk result (Clean S.Store self.new → durable S.Store self.new ≡ durable S.Store self.old) }
        ensures header { self.new.header ≡ self.old.header }
        ensures clean { Clean S.Store self.new → Clean S.Store self.old }
        ensures crash { (db : Trees) → may_leave S.Store self.new db → may_leave S.Store self.old db }
    {
        if self.numbers.first == 0 {
            return Ok(());
        }
        self.sweep_place()?;
        self.sweep_place()?;
        self.sweep_number()?;
        self.sweep_number()
    }

    /// Frees the row at the next place, where its outcome is let go and doesn't await the index.
    ///
    /// # Errors
    ///
    /// As `let_go`.
    fn sweep_place(&mut self) -> Result<(), JournalError>
        requires { IsJournal S.Store self.old }
        ensures kept { OnOk result (IsJournal S.Store self.new) }
        ensures written { OnOk result (Clean S.Store self.new → written S.Store self.new ≡ written S.Store self.old) }
        ensures durable { OnOk result (Clean S.Store self.new → durable S.Store self.new ≡ durable S.Store self.old) }
        ensures header { self.new.header ≡ self.old.header }
        ensures clean { Clean S.Store self.new → Clean S.Store self.old }
        ensures crash { (db : Trees) → may_leave S.Store self.new db → may_leave S.Store self.old db }
    {
        let (store, row) = (&mut self.store, &mut self.row);
        match next_place(store, self.swept, row)? {
            Some(place) => {
                self.swept = place + 1;
                free_place(store, place, self.numbers.freed_below(), row)?;
                Ok(())
            }
            None => {
                self.swept = 0;
                Ok(())
            }
        }
    }

    /// Frees the row of the first outcome, where it is let go and doesn't await the index.
    ///
    /// # Errors
    ///
    /// As `let_go`.
    fn sweep_number(&mut self) -> Result<(), JournalError>
        requires { IsJournal S.Store self.old }
        ensures kept { OnOk result (IsJournal S.Store self.new) }
        ensures written { OnOk result (Clean S.Store self.new → written S.Store self.new ≡ written S.Store self.old) }
        ensures durable { OnOk result (Clean S.Store self.new → durable S.Store self.new ≡ durable S.Store self.old) }
        ensures header { self.new.header ≡ self.old.header }
        ensures clean { Clean S.Store self.new → Clean S.Store self.old }
        ensures crash { (db : Trees) → may_leave S.Store self.new db → may_leave S.Store self.old db }
    {
        let (store, row) = (&mut self.store, &mut self.row);
        match first_numbered(store, row)? {
            Some(number) => {
                free_number(store, number, self.numbers.freed_below())?;
                Ok(())
            }
            None => Ok(()),
        }
    }
}
