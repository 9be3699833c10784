//! Values behind those that a table has.

ghost use Rattle.std.specs.Prelude.{◌≡◌, ◌+◌, ◌≤◌, ◌^◌, length, OnOk};
ghost use Rattle.sqlite_trees.specs.Tree.{Trees};
ghost use Rattle.sqlite_trees.specs.View.{IsClean};
ghost use Rattle.journal.specs.Tables.{AreBehind};

use crate::entry::FilledEntry;
use crate::journal_error::JournalError;
use crate::table::append;
use sqlite_trees::store::{Shape, Store};
use sqlite_value::row::Row;

/// Writes values behind those that a table has, which are as many as `from`. A crash may still take them away.
///
/// # Errors
///
/// The store failed, or memory was refused.
pub fn append_each<S: Store, E: FilledEntry>(
    store: &mut S,
    table: u32,
    from: u64,
    entries: &[E],
    row: &mut Row,
) -> Result<(), JournalError>
    requires few { from + length entries.now ≤ 2 ^ 62 }
    requires shape { IsClean (S.Store.view store.old) → (S.Store.view store.old).shape table ≡ Shape.Table }
    ensures ok { OnOk result (IsClean (S.Store.view store.new) → AreBehind E.Entry.row_at (S.Store.view store.old) (S.Store.view store.new) table from entries.now) }
    ensures clean { IsClean (S.Store.view store.new) → IsClean (S.Store.view store.old) }
    ensures crash { (db : Trees) → S.Store.recovers store.new db → S.Store.recovers store.old db }
{
    for i in 0..entries.len() {
        append(store, table, from + i as u64, &entries[i], row)?;
    }
    Ok(())
}
