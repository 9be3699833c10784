//! What the tables of a file say, and how they are read.

ghost use Rattle.std.specs.Prelude.{◌≡◌, ◌<◌, ◌∷◌, [], IfOk, IsTrue, OnOk, false};
ghost use Rattle.sqlite_trees.specs.Tree.{Trees};
ghost use Rattle.sqlite_trees.specs.View.{IsClean};
ghost use Rattle.journal.specs.HeaderRow.{header_row};
ghost use Rattle.journal.specs.Contents.{keyed_format, preparing_format};
ghost use Rattle.journal.specs.Said.{HasRowsOf};
ghost use Rattle.journal.specs.Journal.{HasTables};
ghost use Rattle.journal.specs.OutcomeIndex.{KnowsOutcomes};
ghost use Rattle.journal.specs.Tables.{IsUnused, OnlyReads};

use crate::event_row::{EventRow, events_of, starts_of};
use crate::header::{Header, KEYED_FORMAT, PREPARING_FORMAT};
use crate::journal_error::JournalError;
use crate::numbers::{Numbers, read_numbers};
use crate::object_row::TypeText;
use crate::outcome_index::{OutcomeIndex, read_index};
use crate::prepared_row::Prepared;
use crate::state_row::FirstState;
use crate::table::{has_no_rows, read_all};
use object_trait::EventKind;
use sqlite_trees::store::Store;
use sqlite_value::row::Row;
use std::alloc::Global;
use store_text::ObjectLine;

/// The table of events.
pub const EVENTS: u32 = 0;

/// The table of the header.
pub const HEADER: u32 = 1;

/// The table of the texts of types.
pub const TYPES: u32 = 2;

/// The table of the objects.
pub const OBJECTS: u32 = 3;

/// The table of the states at which they began.
pub const STATES: u32 = 4;

/// The table of transactions that were prepared in the present epoch.
pub const PREPARED: u32 = 5;

/// The table of what became of transactions that have keys.
pub const OUTCOMES: u32 = 6;

/// Where the name is in a row of the list of a file's objects.
pub const NAME: usize = 2;

/// What a file of a store says: of itself, the texts of types, the objects with their types, the states at
/// which they began, the events since, oldest first, and the transactions that were prepared since.
#[derive(Drop)]
pub struct FileContents {
    pub header: Header,
    pub types: Vec<TypeText>,
    pub objects: Vec<ObjectLine>,
    pub states: Vec<FirstState>,
    pub events: Vec<EventKind>,
    /// In the order in which they were, decided ones too.
    pub prepared: Vec<Prepared>,
}

/// What was read of a file, at which place among all events those of each row begin, and the numbers of outcomes and which
/// of them await the index.
#[derive(Drop)]
pub struct FoundContents {
    pub said: FileContents,
    pub starts: Vec<u64>,
    pub numbers: Numbers,
    pub index: OutcomeIndex,
}

/// Reads all tables, but of that of what became of transactions, which may be long, only the numbers and what awaits the index.
///
/// # Errors
///
/// `Foreign` where a row isn't one that a store writes, or there isn't one header; the file failed, or
/// memory was refused.
pub fn read_contents<S: Store>(
    alloc: Global,
    store: &mut S,
    row: &mut Row,
) -> Result<FoundContents, JournalError>
    requires unused { IsClean (S.Store.view store.old) → IsUnused (S.Store.view store.old) }
    requires tables { IsClean (S.Store.view store.old) → HasTables (S.Store.view store.old) }
    ensures told { IfOk result (λ found. IsClean (S.Store.view store.new) → HasRowsOf (S.Store.view store.old).trees found.said found.starts.items) }
    ensures outcomes { IfOk result (λ found. IsClean (S.Store.view store.new) → KnowsOutcomes ((S.Store.view store.old).trees 6) found.numbers found.index) }
    ensures counted { IfOk result (λ found. found.index.uncounted ≡ false) }
    ensures same { OnOk result (IsClean (S.Store.view store.new) → OnlyReads (S.Store.view store.old) (S.Store.view store.new)) }
    ensures clean { IsClean (S.Store.view store.new) → IsClean (S.Store.view store.old) }
    ensures crash { (db : Trees) → S.Store.recovers store.new db → S.Store.recovers store.old db }
{
    let header = read_header(alloc, store, row)?;
    let types = read_all(alloc, store, TYPES, row)?;
    let objects = read_all(alloc, store, OBJECTS, row)?;
    let states = read_all(alloc, store, STATES, row)?;
    let rows: Vec<EventRow> = read_all(alloc, store, EVENTS, row)?;
    let prepared: Vec<Prepared> = read_all(alloc, store, PREPARED, row)?;
    if !may_be_prepared(header, &prepared) || !may_have_outcomes(store, header, row)? {
        return Err(JournalError::Foreign);
    }
    let numbers = read_numbers(store, row)?;
    let index = read_index(alloc, store, numbers, row)?;
    let events = events_of(alloc, &rows)?;
    let starts = starts_of(alloc, &rows)?;
    let said = FileContents {
        header,
        types,
        objects,
        states,
        events,
        prepared,
    };
    Ok(FoundContents {
        said,
        starts,
        numbers,
        index,
    })
}

/// Whether these may be prepared in a file of this format: those before 7 have none.
fn may_be_prepared(header: Header, prepared: &[Prepared]) -> bool
    ensures { IsTrue result → header.format < preparing_format → prepared.now ≡ [] }
{
    header.format >= PREPARING_FORMAT || prepared.is_empty()
}

/// Whether the table of what became of transactions is as the file's format has it: those before 6 have no row there.
///
/// # Errors
///
/// The file failed, or memory was refused.
fn may_have_outcomes<S: Store>(
    store: &mut S,
    header: Header,
    row: &mut Row,
) -> Result<bool, JournalError>
    requires unused { IsClean (S.Store.view store.old) → IsUnused (S.Store.view store.old) }
    requires tables { IsClean (S.Store.view store.old) → HasTables (S.Store.view store.old) }
    ensures told { IfOk result (λ may. IsTrue may → IsClean (S.Store.view store.new) → header.format < keyed_format → (S.Store.view store.old).trees 6 ≡ []) }
    ensures same { OnOk result (IsClean (S.Store.view store.new) → OnlyReads (S.Store.view store.old) (S.Store.view store.new)) }
    ensures clean { IsClean (S.Store.view store.new) → IsClean (S.Store.view store.old) }
    ensures crash { (db : Trees) → S.Store.recovers store.new db → S.Store.recovers store.old db }
{
    if header.format >= KEYED_FORMAT {
        return Ok(true);
    }
    has_no_rows(store, OUTCOMES, row)
}

/// Reads the one header.
///
/// # Errors
///
/// As `read_contents`.
fn read_header<S: Store>(
    alloc: Global,
    store: &mut S,
    row: &mut Row,
) -> Result<Header, JournalError>
    requires unused { IsClean (S.Store.view store.old) → IsUnused (S.Store.view store.old) }
    requires tables { IsClean (S.Store.view store.old) → HasTables (S.Store.view store.old) }
    ensures told { IfOk result (λ header. IsClean (S.Store.view store.new) → (S.Store.view store.old).trees 1 ≡ header_row 0 header ∷ []) }
    ensures same { OnOk result (IsClean (S.Store.view store.new) → OnlyReads (S.Store.view store.old) (S.Store.view store.new)) }
    ensures clean { IsClean (S.Store.view store.new) → IsClean (S.Store.view store.old) }
    ensures crash { (db : Trees) → S.Store.recovers store.new db → S.Store.recovers store.old db }
{
    let headers: Vec<Header> = read_all(alloc, store, HEADER, row)?;
    match headers.as_slice() {
        [header] => Ok(*header),
        _ => Err(JournalError::Foreign),
    }
}
