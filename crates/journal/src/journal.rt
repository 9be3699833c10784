//! A journal: what a store did, in the tables of a file.

ghost use Rattle.std.specs.Prelude.{◌≡◌, ◌^◌, ◌⊎◌, ◌∷◌, [], IsTrue, OnOk, ◌<◌, drop, map, take, IfOk, ◌+◌, ◌≤◌, ℕ, List, false, length};
ghost use Rattle.sqlite_trees.specs.Tree.{Trees};
ghost use Rattle.journal.specs.Contents.{at_states, contents_with_event, extended, extended_at, from_states, in_life, with_prepared};
ghost use Rattle.journal.specs.Journal.{Clean, IsAsWritten, IsJournal, IsNumbered, IsOpen, IsSettled, ShowsCommit, durable, may_leave, written};
ghost use Rattle.sqlite_trees.specs.declared.store.Shape.TheVariants.{Table};
ghost use Rattle.sqlite_trees.specs.View.{IsClean};
ghost use Rattle.journal.specs.declared.state_row.FirstState.{FirstState as First};
ghost use Rattle.journal.specs.Rows.{value_rows};
ghost use Rattle.journal.specs.StateRow.{state_row};
ghost use Rattle.journal.specs.Tables.{Rewrites};

use crate::contents::{EVENTS, HEADER, OBJECTS, OUTCOMES, PREPARED, STATES, TYPES};
use crate::entry::Entry;
use crate::event_row::{EventRow, put_group, some_of};
use crate::header::{FORMAT, Header, KEYED_FORMAT, NAMING_FORMAT};
use crate::journal_error::JournalError;
use crate::more_rows::append_each;
use crate::new_table::{empty_epoch, list_anew, make_anew};
use crate::numbers::Numbers;
use crate::object_row::TypeText;
use crate::outcome_index::OutcomeIndex;
use crate::prepared_row::Prepared;
use crate::row_places::rows_of;
use crate::schema::{OBJECT_SQL, OUTCOME_SQL, PREPARED_SQL};
use crate::state_row::FirstState;
use crate::table::{MOST_ROWS, append, read_all, read_from};
use event_text::EventGroup;
use object_trait::EventKind;
use sqlite_trees::store::{Alter, Store};
use sqlite_value::row::Row;
use std::alloc::Global;
use store_text::ObjectLine;

/// What a store did, in the tables of a file, by way of a store of trees: what is written, and what of it
/// no crash can take away.
#[derive(Drop)]
pub struct Journal<S: Store> {
    pub(crate) store: S,
    pub(crate) row: Row,
    // At which place among all events those of each row begin.
    pub(crate) starts: Vec<u64>,
    // How many events are in rows.
    pub(crate) settled: u64,
    // How many events are written, also those that are in no row yet.
    pub(crate) count: u64,
    // Those in no row yet: the next commit makes one of them.
    pub(crate) pending: EventGroup,
    pub(crate) header: Header,
    // How many transactions were prepared in this epoch.
    pub(crate) prepared: u64,
    // Of outcomes, also of those that their row in the file doesn't count yet: the next commit writes it.
    pub(crate) numbers: Numbers,
    // Of those that await the index of the file.
    pub(crate) index: OutcomeIndex,
    // Up to which place rows of outcomes that are let go were looked for last.
    pub(crate) swept: u64,
}

impl<S: Store> Journal<S> {
    /// Writes an event after the others. A crash may still take it away.
    ///
    /// # Errors
    ///
    /// The file failed, or memory was refused: the journal isn't to be used any more.
    pub fn append(&mut self, event: EventKind) -> Result<(), JournalError>
        requires { IsJournal S.Store self.old }
        ensures kept { OnOk result (IsJournal S.Store self.new) }
        ensures written { OnOk result (Clean S.Store self.new → written S.Store self.new ≡ contents_with_event (written S.Store self.old) event) }
        ensures durable { OnOk result (Clean S.Store self.new → durable S.Store self.new ≡ durable S.Store self.old) }
        ensures header { self.new.header ≡ self.old.header }
        ensures clean { Clean S.Store self.new → Clean S.Store self.old }
        ensures crash { (db : Trees) → may_leave S.Store self.new db → may_leave S.Store self.old db }
    {
        let Some(count) = self.count.checked_add(1) else {
            return Err(JournalError::Full);
        };
        self.pending.push(event)?;
        self.count = count;
        Ok(())
    }

    /// Makes a row of the events that are in none. A crash may still take it away.
    ///
    /// # Errors
    ///
    /// The file failed, or memory was refused: the journal isn't to be used any more.
    fn write_pending(&mut self) -> Result<(), JournalError>
        requires { IsJournal S.Store self.old }
        ensures kept { OnOk result (IsJournal S.Store self.new) }
        ensures none { OnOk result (self.new.pending ≡ []) }
        ensures written { OnOk result (Clean S.Store self.new → written S.Store self.new ≡ written S.Store self.old) }
        ensures durable { OnOk result (Clean S.Store self.new → durable S.Store self.new ≡ durable S.Store self.old) }
        ensures header { self.new.header ≡ self.old.header }
        ensures clean { Clean S.Store self.new → Clean S.Store self.old }
        ensures crash { (db : Trees) → may_leave S.Store self.new db → may_leave S.Store self.old db }
        ensures numbered { IsNumbered S.Store self.old → IsNumbered S.Store self.new }
    {
        if self.pending.is_empty() {
            return Ok(());
        }
        let position = self.starts.len() as u64;
        if position >= MOST_ROWS {
            return Err(JournalError::Full);
        }
        let count = self.count.saturating_sub(self.settled);
        let (store, row) = (&mut self.store, &mut self.row);
        put_group(store, position, &self.pending, count, row)?;
        self.starts.push(self.settled)?;
        self.pending.clear();
        self.settled = self.count;
        Ok(())
    }

    /// Makes all that was written durable: after `Ok` no crash takes it away.
    ///
    /// # Errors
    ///
    /// The file failed, or memory was refused: the journal isn't to be used any more. An open says what of
    /// it is there.
    pub fn commit(&mut self) -> Result<(), JournalError>
        requires { IsJournal S.Store self.old }
        ensures kept { OnOk result (IsJournal S.Store self.new) }
        ensures durable { OnOk result (Clean S.Store self.new → durable S.Store self.new ≡ written S.Store self.old) }
        ensures written { OnOk result (Clean S.Store self.new → written S.Store self.new ≡ written S.Store self.old) }
        ensures header { self.new.header ≡ self.old.header }
        ensures clean { Clean S.Store self.new → Clean S.Store self.old }
        ensures crash { (db : Trees) → may_leave S.Store self.new db → IsAsWritten S.Store self.old db ⊎ may_leave S.Store self.old db }
        ensures is_open { OnOk result (Clean S.Store self.new → IsOpen S.Store self.new) }
        ensures shows { OnOk result (ShowsCommit S.Store self.new) }
        ensures numbered { IsNumbered S.Store self.old → IsNumbered S.Store self.new }
    {
        self.write_pending()?;
        self.count_outcomes()?;
        self.commit_rows()
    }

    /// Makes all that was written durable, where it is in rows, and outcomes are counted.
    ///
    /// # Errors
    ///
    /// As `commit`.
    fn commit_rows(&mut self) -> Result<(), JournalError>
        requires journal { IsJournal S.Store self.old }
        requires none { self.old.pending ≡ [] }
        requires counted { self.old.index.uncounted ≡ false }
        ensures kept { OnOk result (IsJournal S.Store self.new) }
        ensures durable { OnOk result (Clean S.Store self.new → durable S.Store self.new ≡ written S.Store self.old) }
        ensures written { OnOk result (Clean S.Store self.new → written S.Store self.new ≡ written S.Store self.old) }
        ensures header { self.new.header ≡ self.old.header }
        ensures clean { Clean S.Store self.new → Clean S.Store self.old }
        ensures crash { (db : Trees) → may_leave S.Store self.new db → IsAsWritten S.Store self.old db ⊎ may_leave S.Store self.old db }
        ensures is_open { OnOk result (Clean S.Store self.new → IsOpen S.Store self.new) }
        ensures shows { OnOk result (ShowsCommit S.Store self.new) }
        ensures numbered { IsNumbered S.Store self.old → IsNumbered S.Store self.new }
    {
        self.store.commit()?;
        Ok(())
    }

    /// Writes that a transaction is prepared, behind the others of the epoch. A crash may still take it away.
    ///
    /// # Errors
    ///
    /// `Foreign` where the file is of an older format, which the next life raises, or `Full`, and nothing changes; the file
    /// failed, or memory was refused: the journal isn't to be used any more.
    pub fn prepare(&mut self, prepared: &Prepared) -> Result<(), JournalError>
        requires { IsJournal S.Store self.old }
        ensures kept { OnOk result (IsJournal S.Store self.new) }
        ensures written { OnOk result (Clean S.Store self.new → written S.Store self.new ≡ with_prepared (written S.Store self.old) prepared.now) }
        ensures durable { OnOk result (Clean S.Store self.new → durable S.Store self.new ≡ durable S.Store self.old) }
        ensures header { self.new.header ≡ self.old.header }
        ensures clean { Clean S.Store self.new → Clean S.Store self.old }
        ensures crash { (db : Trees) → may_leave S.Store self.new db → may_leave S.Store self.old db }
    {
        if self.header.format < FORMAT {
            return Err(JournalError::Foreign);
        }
        if self.prepared >= MOST_ROWS {
            return Err(JournalError::Full);
        }
        let (store, row) = (&mut self.store, &mut self.row);
        append(store, PREPARED, self.prepared, prepared, row)?;
        self.prepared += 1;
        Ok(())
    }

    /// What the file says of itself.
    pub fn header(&self) -> &Header
        ensures { result.now ≡ self.now.header }
    {
        &self.header
    }

    /// The number of the present life.
    pub fn life(&self) -> u32
        ensures { result ≡ self.now.header.life }
    {
        self.header.life
    }

    /// While the journal is open, a crash leaves what was there at the last commit, and nothing else.
    pub fn is_settled(&self)
        ensures { IsOpen S.Store self.now → IsSettled S.Store self.now }
    {}

    /// Gives the store of trees back.
    pub fn into_store(self) -> S
        ensures { result ≡ self.store }
    {
        let Journal {
            store,
            row: _,
            starts: _,
            settled: _,
            count: _,
            pending: _,
            header: _,
            prepared: _,
            numbers: _,
            index: _,
            swept: _,
        } = self;
        store
    }

    /// The texts of types, in order.
    ///
    /// # Errors
    ///
    /// `Foreign` where a row is none that a store writes, `Full` where there are more rows than positions; the
    /// file failed, or memory was refused. The journal isn't to be used any more.
    pub fn types(&mut self, alloc: Global) -> Result<Vec<TypeText>, JournalError>
        requires journal { IsJournal S.Store self.old }
        requires shows { ShowsCommit S.Store self.old }
        ensures said { IfOk result (λ types. Clean S.Store self.new → types.items ≡ (written S.Store self.old).types) }
        ensures kept { OnOk result (IsJournal S.Store self.new) }
        ensures written { OnOk result (Clean S.Store self.new → written S.Store self.new ≡ written S.Store self.old) }
        ensures durable { OnOk result (Clean S.Store self.new → durable S.Store self.new ≡ durable S.Store self.old) }
        ensures header { self.new.header ≡ self.old.header }
        ensures shows { OnOk result (ShowsCommit S.Store self.new) }
        ensures clean { Clean S.Store self.new → Clean S.Store self.old }
        ensures crash { (db : Trees) → may_leave S.Store self.new db → may_leave S.Store self.old db }
    {
        self.all_of(alloc, TYPES)
    }

    /// The objects with their types, in order.
    ///
    /// # Errors
    ///
    /// As `types`.
    pub fn objects(&mut self, alloc: Global) -> Result<Vec<ObjectLine>, JournalError>
        requires journal { IsJournal S.Store self.old }
        requires shows { ShowsCommit S.Store self.old }
        ensures said { IfOk result (λ objects. Clean S.Store self.new → objects.items ≡ (written S.Store self.old).objects) }
        ensures kept { OnOk result (IsJournal S.Store self.new) }
        ensures written { OnOk result (Clean S.Store self.new → written S.Store self.new ≡ written S.Store self.old) }
        ensures durable { OnOk result (Clean S.Store self.new → durable S.Store self.new ≡ durable S.Store self.old) }
        ensures header { self.new.header ≡ self.old.header }
        ensures shows { OnOk result (ShowsCommit S.Store self.new) }
        ensures clean { Clean S.Store self.new → Clean S.Store self.old }
        ensures crash { (db : Trees) → may_leave S.Store self.new db → may_leave S.Store self.old db }
    {
        self.all_of(alloc, OBJECTS)
    }

    /// The states at which the objects began, in order.
    ///
    /// # Errors
    ///
    /// As `types`.
    pub fn states(&mut self, alloc: Global) -> Result<Vec<FirstState>, JournalError>
        requires journal { IsJournal S.Store self.old }
        requires shows { ShowsCommit S.Store self.old }
        ensures said { IfOk result (λ states. Clean S.Store self.new → states.items ≡ (written S.Store self.old).states) }
        ensures kept { OnOk result (IsJournal S.Store self.new) }
        ensures written { OnOk result (Clean S.Store self.new → written S.Store self.new ≡ written S.Store self.old) }
        ensures durable { OnOk result (Clean S.Store self.new → durable S.Store self.new ≡ durable S.Store self.old) }
        ensures header { self.new.header ≡ self.old.header }
        ensures shows { OnOk result (ShowsCommit S.Store self.new) }
        ensures clean { Clean S.Store self.new → Clean S.Store self.old }
        ensures crash { (db : Trees) → may_leave S.Store self.new db → may_leave S.Store self.old db }
    {
        self.all_of(alloc, STATES)
    }

    /// The events from this place on, oldest first, and at most this many: no row is read that has none of
    /// them.
    ///
    /// # Errors
    ///
    /// As `types`.
    pub fn events(
        &mut self,
        alloc: Global,
        from: u64,
        count: usize,
    ) -> Result<Vec<EventKind>, JournalError>
        requires journal { IsJournal S.Store self.old }
        requires shows { ShowsCommit S.Store self.old }
        ensures said { IfOk result (λ events. Clean S.Store self.new → events.items ≡ take count (drop from (written S.Store self.old).events)) }
        ensures kept { OnOk result (IsJournal S.Store self.new) }
        ensures written { OnOk result (Clean S.Store self.new → written S.Store self.new ≡ written S.Store self.old) }
        ensures durable { OnOk result (Clean S.Store self.new → durable S.Store self.new ≡ durable S.Store self.old) }
        ensures header { self.new.header ≡ self.old.header }
        ensures shows { OnOk result (ShowsCommit S.Store self.new) }
        ensures clean { Clean S.Store self.new → Clean S.Store self.old }
        ensures crash { (db : Trees) → may_leave S.Store self.new db → may_leave S.Store self.old db }
    {
        let Some(rows) = rows_of(&self.starts, from, count) else {
            return Ok(Vec::new(alloc));
        };
        let (store, row) = (&mut self.store, &mut self.row);
        let found: Vec<EventRow> = read_from(alloc, store, EVENTS, rows.first, rows.count, row)?;
        let events = some_of(alloc, &found, from - rows.start, count)?;
        Ok(events)
    }

    /// The values of a table, in order.
    ///
    /// # Errors
    ///
    /// As `types`.
    fn all_of<E: Entry + Drop>(&mut self, alloc: Global, table: u32) -> Result<Vec<E>, JournalError>
        requires journal { IsJournal S.Store self.old }
        requires shows { ShowsCommit S.Store self.old }
        requires table { table < 5 }
        ensures told { IfOk result (λ entries. Clean S.Store self.new → entries.items ≡ map E.told_by ((S.Store.view self.old.store).trees table)) }
        ensures kept { OnOk result (IsJournal S.Store self.new) }
        ensures written { OnOk result (Clean S.Store self.new → written S.Store self.new ≡ written S.Store self.old) }
        ensures durable { OnOk result (Clean S.Store self.new → durable S.Store self.new ≡ durable S.Store self.old) }
        ensures header { self.new.header ≡ self.old.header }
        ensures shows { OnOk result (ShowsCommit S.Store self.new) }
        ensures clean { Clean S.Store self.new → Clean S.Store self.old }
        ensures crash { (db : Trees) → may_leave S.Store self.new db → may_leave S.Store self.old db }
    {
        read_all(alloc, &mut self.store, table, &mut self.row)
    }
}

impl<S: Alter> Journal<S> {
    /// Begins another life: its number, which is one more than the last one's, is written into the header, which
    /// is of the newest format then.
    ///
    /// # Errors
    ///
    /// `Full` where there is no greater number, and nothing changes; or the file failed, or memory was
    /// refused: the journal isn't to be used any more.
    pub fn begin_life(&mut self) -> Result<u32, JournalError>
        requires { IsJournal S.Store self.old }
        ensures kept { OnOk result (IsJournal S.Store self.new) }
        ensures raised { IfOk result (λ life. life ≡ self.old.header.life + 1) }
        ensures last { OnOk result (Clean S.Store self.new → (written S.Store self.old).headers ≡ self.old.header ∷ []) }
        ensures written { IfOk result (λ life. Clean S.Store self.new → written S.Store self.new ≡ in_life (written S.Store self.old) life) }
        ensures durable { OnOk result (Clean S.Store self.new → durable S.Store self.new ≡ durable S.Store self.old) }
        ensures clean { Clean S.Store self.new → Clean S.Store self.old }
        ensures crash { (db : Trees) → may_leave S.Store self.new db → may_leave S.Store self.old db }
    {
        let Some(life) = self.header.life.checked_add(1) else {
            return Err(JournalError::Full);
        };
        self.raise_tables()?;
        let header = Header {
            format: FORMAT,
            life,
            ..self.header
        };
        append(&mut self.store, HEADER, 0, &header, &mut self.row)?;
        self.header = header;
        Ok(life)
    }

    /// Lists the tables of a file of an older format anew that have columns more in the newest one, and makes those anew that
    /// have no row.
    ///
    /// # Errors
    ///
    /// The file failed, or memory was refused.
    fn raise_tables(&mut self) -> Result<(), JournalError>
        requires { IsJournal S.Store self.old }
        ensures kept { OnOk result (IsJournal S.Store self.new) }
        ensures written { OnOk result (Clean S.Store self.new → written S.Store self.new ≡ written S.Store self.old) }
        ensures durable { OnOk result (Clean S.Store self.new → durable S.Store self.new ≡ durable S.Store self.old) }
        ensures header { self.new.header ≡ self.old.header }
        ensures clean { Clean S.Store self.new → Clean S.Store self.old }
        ensures crash { (db : Trees) → may_leave S.Store self.new db → may_leave S.Store self.old db }
    {
        if self.header.format >= FORMAT {
            return Ok(());
        }
        if self.header.format >= KEYED_FORMAT {
            return list_anew(&mut self.store, OUTCOMES, "outcome", OUTCOME_SQL);
        }
        if self.header.format < NAMING_FORMAT {
            list_anew(&mut self.store, OBJECTS, "object", OBJECT_SQL)?;
        }
        make_anew(&mut self.store, PREPARED, "prepared", PREPARED_SQL)?;
        make_anew(&mut self.store, OUTCOMES, "outcome", OUTCOME_SQL)?;
        Ok(())
    }

    /// Begins another epoch, and another life with it: no event and no prepared transaction is left, these are the objects'
    /// states, and outcomes are let go since which as many were kept as stay at least. A crash before the next commit takes all of it away.
    ///
    /// # Errors
    ///
    /// As `begin_life`.
    pub fn begin_epoch(&mut self, states: &[FirstState]) -> Result<u32, JournalError>
        requires journal { IsJournal S.Store self.old }
        requires as_many { Clean S.Store self.old → length states.now ≡ length (written S.Store self.old).states }
        requires few { length states.now ≤ 65536 }
        ensures kept { OnOk result (IsJournal S.Store self.new) }
        ensures raised { IfOk result (λ life. life ≡ self.old.header.life + 1) }
        ensures last { OnOk result (Clean S.Store self.new → (written S.Store self.old).headers ≡ self.old.header ∷ []) }
        ensures written { IfOk result (λ life. Clean S.Store self.new → written S.Store self.new ≡ in_life (from_states (written S.Store self.old) states.now) life) }
        ensures durable { OnOk result (Clean S.Store self.new → durable S.Store self.new ≡ durable S.Store self.old) }
        ensures clean { Clean S.Store self.new → Clean S.Store self.old }
        ensures crash { (db : Trees) → may_leave S.Store self.new db → may_leave S.Store self.old db }
    {
        self.let_go()?;
        self.reset(states)?;
        self.begin_life()
    }

    /// Begins another epoch with more objects, and another life with it: no event and no prepared transaction is left,
    /// these texts of types and objects are behind those that the file has, of which it has `known` texts, these are the
    /// states of all objects, and outcomes are let go as by `begin_epoch`. A crash before the next commit takes all of it away.
    ///
    /// # Errors
    ///
    /// As `begin_life`.
    pub fn extend_epoch(
        &mut self,
        known: u64,
        types: &[TypeText],
        objects: &[ObjectLine],
        states: &[FirstState],
    ) -> Result<u32, JournalError>
        requires journal { IsJournal S.Store self.old }
        requires known { Clean S.Store self.old → known ≡ length (written S.Store self.old).types }
        requires as_many { Clean S.Store self.old → length states.now ≡ length (written S.Store self.old).states + length objects.now }
        requires objects { Clean S.Store self.old → length (written S.Store self.old).objects ≡ length (written S.Store self.old).states }
        requires some { length objects.now ≤ length states.now }
        requires few { length states.now ≤ 65536 }
        requires few_types { known + length types.now ≤ 2 ^ 62 }
        ensures kept { OnOk result (IsJournal S.Store self.new) }
        ensures raised { IfOk result (λ life. life ≡ self.old.header.life + 1) }
        ensures last { OnOk result (Clean S.Store self.new → (written S.Store self.old).headers ≡ self.old.header ∷ []) }
        ensures written { IfOk result (λ life. Clean S.Store self.new → written S.Store self.new ≡ in_life (extended (written S.Store self.old) types.now objects.now states.now) life) }
        ensures durable { OnOk result (Clean S.Store self.new → durable S.Store self.new ≡ durable S.Store self.old) }
        ensures clean { Clean S.Store self.new → Clean S.Store self.old }
        ensures crash { (db : Trees) → may_leave S.Store self.new db → may_leave S.Store self.old db }
    {
        self.let_go()?;
        self.extend(known, types, objects, states)?;
        self.begin_life()
    }

    /// Leaves no event and no prepared transaction, these types and objects behind the others, and these states.
    ///
    /// # Errors
    ///
    /// The file failed, or memory was refused.
    fn extend(
        &mut self,
        known: u64,
        types: &[TypeText],
        objects: &[ObjectLine],
        states: &[FirstState],
    ) -> Result<(), JournalError>
        requires journal { IsJournal S.Store self.old }
        requires known { Clean S.Store self.old → known ≡ length (written S.Store self.old).types }
        requires as_many { Clean S.Store self.old → length states.now ≡ length (written S.Store self.old).states + length objects.now }
        requires objects { Clean S.Store self.old → length (written S.Store self.old).objects ≡ length (written S.Store self.old).states }
        requires some { length objects.now ≤ length states.now }
        requires few { length states.now ≤ 65536 }
        requires few_types { known + length types.now ≤ 2 ^ 62 }
        ensures kept { OnOk result (IsJournal S.Store self.new) }
        ensures header { self.new.header ≡ self.old.header }
        ensures written { OnOk result (Clean S.Store self.new → written S.Store self.new ≡ extended_at (written S.Store self.old) types.now objects.now states.now) }
        ensures durable { OnOk result (Clean S.Store self.new → durable S.Store self.new ≡ durable S.Store self.old) }
        ensures clean { Clean S.Store self.new → Clean S.Store self.old }
        ensures crash { (db : Trees) → may_leave S.Store self.new db → may_leave S.Store self.old db }
    {
        let count = states.len() - objects.len();
        let (store, row) = (&mut self.store, &mut self.row);
        empty_epoch(store)?;
        rewrite_states(store, &states[..count], row)?;
        append_each(store, STATES, count as u64, &states[count..], row)?;
        append_each(store, TYPES, known, types, row)?;
        append_each(store, OBJECTS, count as u64, objects, row)?;
        self.starts.clear();
        self.pending.clear();
        self.settled = 0;
        self.count = 0;
        self.prepared = 0;
        Ok(())
    }

    /// Leaves no event and no prepared transaction, and these states.
    ///
    /// # Errors
    ///
    /// The file failed, or memory was refused.
    fn reset(&mut self, states: &[FirstState]) -> Result<(), JournalError>
        requires journal { IsJournal S.Store self.old }
        requires as_many { Clean S.Store self.old → length states.now ≡ length (written S.Store self.old).states }
        requires few { length states.now ≤ 65536 }
        ensures kept { OnOk result (IsJournal S.Store self.new) }
        ensures header { self.new.header ≡ self.old.header }
        ensures written { OnOk result (Clean S.Store self.new → written S.Store self.new ≡ at_states (written S.Store self.old) states.now) }
        ensures durable { OnOk result (Clean S.Store self.new → durable S.Store self.new ≡ durable S.Store self.old) }
        ensures clean { Clean S.Store self.new → Clean S.Store self.old }
        ensures crash { (db : Trees) → may_leave S.Store self.new db → may_leave S.Store self.old db }
    {
        empty_epoch(&mut self.store)?;
        rewrite_states(&mut self.store, states, &mut self.row)?;
        self.starts.clear();
        self.pending.clear();
        self.settled = 0;
        self.count = 0;
        self.prepared = 0;
        Ok(())
    }
}

/// Writes the states of objects in place of as many.
///
/// # Errors
///
/// The file failed, or memory was refused.
fn rewrite_states<S: Store>(
    store: &mut S,
    states: &[FirstState],
    row: &mut Row,
) -> Result<(), JournalError>
    requires shape { IsClean (S.Store.view store.old) → (S.Store.view store.old).shape 4 ≡ Table }
    requires as_many { IsClean (S.Store.view store.old) → (was : List First) × ((S.Store.view store.old).trees 4 ≡ value_rows state_row 0 was) × (length was ≡ length states.now) }
    requires few { length states.now ≤ 65536 }
    ensures ok { OnOk result (IsClean (S.Store.view store.new) → Rewrites (S.Store.view store.old) (S.Store.view store.new) 4 (value_rows state_row 0 states.now)) }
    ensures clean { IsClean (S.Store.view store.new) → IsClean (S.Store.view store.old) }
    ensures crash { (db : Trees) → S.Store.recovers store.new db → S.Store.recovers store.old db }
{
    for (x, state) in states.iter().enumerate() {
        append(store, STATES, x as u64, state, row)?;
    }
    Ok(())
}
