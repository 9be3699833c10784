//! Tables of values, at the positions 0, 1, 2 and so on.

ghost use Rattle.std.specs.Prelude.{◌≡◌, ◌+◌, ◌<◌, ◌^◌, List, [], drop, length, map, take, Some, IfOk, IsSome, IsTrue, OnOk};
ghost use Rattle.sqlite_value.specs.Order.{Row as Columns};
ghost use Rattle.sqlite_trees.specs.Tree.{Trees, put_row};
ghost use Rattle.sqlite_trees.specs.View.{IsClean, KeepsSchema, SetsTree};
ghost use Rattle.journal.specs.Rows.{value_rows};
ghost use Rattle.journal.specs.Tables.{IsUnused, OnlyReads};

use crate::cells::begin_key;
use crate::entry::{Entry, FilledEntry};
use crate::journal_error::JournalError;
use sqlite_trees::store::{Direction, Shape, Store};
use sqlite_value::row::Row;
use std::alloc::Global;

/// The greatest number of rows of a table.
pub const MOST_ROWS: u64 = 1 << 62;

/// Writes the value at this position of a table. A crash may still take it away.
///
/// # Errors
///
/// The store failed, or memory was refused.
pub fn append<S: Store, E: FilledEntry>(
    store: &mut S,
    table: u32,
    position: u64,
    entry: &E,
    row: &mut Row,
) -> Result<(), JournalError>
    requires few { position < 2 ^ 62 }
    requires shape { IsClean (S.Store.view store.old) → (S.Store.view store.old).shape table ≡ Shape.Table }
    ensures ok { OnOk result (IsClean (S.Store.view store.new) → SetsTree (S.Store.view store.old) (S.Store.view store.new) table (put_row (E.Entry.row_at position entry.now))) }
    ensures clean { IsClean (S.Store.view store.new) → IsClean (S.Store.view store.old) }
    ensures schema { KeepsSchema (S.Store.view store.old) (S.Store.view store.new) }
    ensures crash { (db : Trees) → S.Store.recovers store.new db → S.Store.recovers store.old db }
{
    entry.fill(position, row)?;
    store.put(table, row)?;
    Ok(())
}

/// The values of a table, in order.
///
/// # Errors
///
/// `Foreign` where a row is none of a value at its position; the store failed, or memory was refused.
pub fn read_all<S: Store, E: Entry + Drop>(
    alloc: Global,
    store: &mut S,
    table: u32,
    row: &mut Row,
) -> Result<Vec<E>, JournalError>
    requires unused { IsClean (S.Store.view store.old) → IsUnused (S.Store.view store.old) }
    requires shape { IsClean (S.Store.view store.old) → (S.Store.view store.old).shape table ≡ Shape.Table }
    ensures told { IfOk result (λ entries. IsClean (S.Store.view store.new) → (S.Store.view store.old).trees table ≡ value_rows E.row_at 0 entries.items) }
    ensures same { OnOk result (IsClean (S.Store.view store.new) → OnlyReads (S.Store.view store.old) (S.Store.view store.new)) }
    ensures few { IfOk result (λ entries. length entries.items < 2 ^ 62) }
    ensures clean { IsClean (S.Store.view store.new) → IsClean (S.Store.view store.old) }
    ensures crash { (db : Trees) → S.Store.recovers store.new db → S.Store.recovers store.old db }
{
    row.clear();
    store.seek(0, table, row, Direction::Forward)?;
    read_on(alloc, store, 0, usize::MAX, row)
}

/// Whether a table has no row.
///
/// # Errors
///
/// The store failed, or memory was refused.
pub fn has_no_rows<S: Store>(store: &mut S, table: u32, row: &mut Row) -> Result<bool, JournalError>
    requires unused { IsClean (S.Store.view store.old) → IsUnused (S.Store.view store.old) }
    requires shape { IsClean (S.Store.view store.old) → (S.Store.view store.old).shape table ≡ Shape.Table }
    ensures told { IfOk result (λ none. IsTrue none → IsClean (S.Store.view store.new) → (S.Store.view store.old).trees table ≡ []) }
    ensures same { OnOk result (IsClean (S.Store.view store.new) → OnlyReads (S.Store.view store.old) (S.Store.view store.new)) }
    ensures clean { IsClean (S.Store.view store.new) → IsClean (S.Store.view store.old) }
    ensures crash { (db : Trees) → S.Store.recovers store.new db → S.Store.recovers store.old db }
{
    row.clear();
    store.seek(0, table, row, Direction::Forward)?;
    Ok(!store.next(0, row)?)
}

/// The values of a table from this position on, in order, and at most this many.
///
/// # Errors
///
/// As `read_all`; `Full` where there is no such position.
pub fn read_from<S: Store, E: Entry + Drop>(
    alloc: Global,
    store: &mut S,
    table: u32,
    from: u64,
    count: usize,
    row: &mut Row,
) -> Result<Vec<E>, JournalError>
    requires shape { IsClean (S.Store.view store.old) → (S.Store.view store.old).shape table ≡ Shape.Table }
    requires told { IsClean (S.Store.view store.old) → (S.Store.view store.old).trees table ≡ value_rows E.row_at 0 (map E.told_by ((S.Store.view store.old).trees table)) }
    ensures told { IfOk result (λ entries. IsClean (S.Store.view store.new) → entries.items ≡ take count (drop from (map E.told_by ((S.Store.view store.old).trees table)))) }
    ensures same { OnOk result (IsClean (S.Store.view store.new) → OnlyReads (S.Store.view store.old) (S.Store.view store.new)) }
    ensures clean { IsClean (S.Store.view store.new) → IsClean (S.Store.view store.old) }
    ensures crash { (db : Trees) → S.Store.recovers store.new db → S.Store.recovers store.old db }
{
    if from >= MOST_ROWS {
        return Err(JournalError::Full);
    }
    begin_key(row, from)?;
    store.seek(0, table, row, Direction::Forward)?;
    read_on(alloc, store, from, count, row)
}

/// The values of the rows that a cursor has left, the first of them at this position, and at most this many.
///
/// # Errors
///
/// As `read_all`.
fn read_on<S: Store, E: Entry + Drop>(
    alloc: Global,
    store: &mut S,
    from: u64,
    count: usize,
    row: &mut Row,
) -> Result<Vec<E>, JournalError>
    requires { IsSome ((S.Store.view store.old).cursors 0) }
    ensures told { IfOk result (λ entries. IsClean (S.Store.view store.new)
        → (all : List Columns) × ((S.Store.view store.old).cursors 0 ≡ Some all) × (value_rows E.row_at from entries.items ≡ take count all)) }
    ensures few { IfOk result (λ entries. from + length entries.items < 2 ^ 62) }
    ensures same { OnOk result (IsClean (S.Store.view store.new) → OnlyReads (S.Store.view store.old) (S.Store.view store.new)) }
    ensures clean { IsClean (S.Store.view store.new) → IsClean (S.Store.view store.old) }
    ensures crash { (db : Trees) → S.Store.recovers store.new db → S.Store.recovers store.old db }
{
    let mut entries = Vec::new(alloc);
    for position in from..MOST_ROWS {
        if entries.len() == count || !store.next(0, row)? {
            return Ok(entries);
        }
        let Some(entry) = E::read(alloc, position, row)? else {
            return Err(JournalError::Foreign);
        };
        entries.push(entry)?;
    }
    Err(JournalError::Full)
}
