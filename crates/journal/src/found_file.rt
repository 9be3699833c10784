//! Opening a journal: its tables are looked for and read.

ghost use Rattle.std.specs.Prelude.{◌≡◌, ◌≢◌, ◌+◌, ◌<◌, ◌^◌, false, true, pos, IfErr, IfOk, IsTrue};
ghost use Rattle.sqlite_value.specs.Order.{column};
ghost use Rattle.sqlite_value.specs.declared.value.Value.TheVariants.{Text};
ghost use Rattle.sqlite_trees.specs.Tree.{Trees, has_rowid};
ghost use Rattle.sqlite_trees.specs.Objects.{catalog_tree};
ghost use Rattle.sqlite_trees.specs.View.{IsClean};
ghost use Rattle.journal.specs.Contents.{IsFile, contents_of};
ghost use Rattle.journal.specs.Journal.{Clean, HasTables, IsJournal, IsNamedOnce, IsOpen, IsOwnNamed, ShowsCommit, durable, may_leave, name_column, written};
ghost use Rattle.journal.specs.Said.{contents_beside};

use crate::cells::{is_number, is_text};
use crate::contents::{
    EVENTS, FileContents, FoundContents, HEADER, NAME, OBJECTS, OUTCOMES, PREPARED, STATES, TYPES,
    read_contents,
};
use crate::journal::Journal;
use crate::journal_error::JournalError;
use crate::swept_rows::first_swept;
use event_text::EventGroup;
use sqlite_trees::store::{Alter, Shape, Store};
use sqlite_value::row::Row;
use std::alloc::{AllocError, Global};

impl<S: Alter> Journal<S> {
    /// Opens the journal in these trees, and reads it. What a transaction has written is rolled back.
    ///
    /// # Errors
    ///
    /// `Foreign` where a table is missing or has a row that no store writes; the file failed, or memory was
    /// refused. The trees come back.
    pub fn open(
        alloc: Global,
        mut store: S,
    ) -> Result<(Journal<S>, FileContents), (JournalError, S)>
        requires { IsClean (S.Store.view store) → IsTrue (S.Store.view store).is_numbered }
        ensures kept { IfOk result (λ r. IsJournal S.Store r.0) }
        ensures settled { IfOk result (λ r. Clean S.Store r.0 → written S.Store r.0 ≡ durable S.Store r.0) }
        ensures is_open { IfOk result (λ r. Clean S.Store r.0 → IsOpen S.Store r.0) }
        ensures shows { IfOk result (λ r. ShowsCommit S.Store r.0) }
        ensures clean { IfOk result (λ r. Clean S.Store r.0 → IsClean (S.Store.view store)) }
        ensures said { IfOk result (λ r. Clean S.Store r.0 → durable S.Store r.0 ≡ contents_beside (durable S.Store r.0).outcomes r.1) }
        ensures was_open { IfOk result (λ r. Clean S.Store r.0 → IsTrue (S.Store.view store).is_open) }
        ensures same { IfOk result (λ r. Clean S.Store r.0 → durable S.Store r.0 ≡ contents_of (S.Store.view store).committed) }
        ensures file { IfOk result (λ r. Clean S.Store r.0 → IsFile (S.Store.view store).committed) }
        ensures crash { IfOk result (λ r. (db : Trees) → may_leave S.Store r.0 db → S.Store.recovers store db) }
        ensures back { IfErr result (λ e. (db : Trees) → S.Store.recovers e.1 db → S.Store.recovers store db) }
    {
        store.rollback();
        match is_ready(alloc, &store) {
            Ok(true) => {}
            Ok(false) => return Err((JournalError::Foreign, store)),
            Err(error) => return Err((JournalError::from(error), store)),
        }
        let mut row = Row::new(alloc);
        match read_contents(alloc, &mut store, &mut row) {
            Ok(
                FoundContents {
                    said,
                    starts,
                    numbers,
                    index,
                },
            ) => {
                let settled = said.events.as_slice().len() as u64;
                let header = said.header;
                let prepared = said.prepared.as_slice().len() as u64;
                let journal = Journal {
                    store,
                    row,
                    starts,
                    settled,
                    count: settled,
                    pending: EventGroup::new(alloc),
                    header,
                    prepared,
                    numbers,
                    index,
                    swept: first_swept(header.life),
                };
                Ok((journal, said))
            }
            Err(error) => Err((error, store)),
        }
    }
}

/// Whether the trees aren't broken, have the tables of a store, and no other object has the name of one that is made
/// anew.
fn is_ready<S: Alter>(alloc: Global, store: &S) -> Result<bool, AllocError>
    ensures sound { IfOk result (λ ready. IsTrue ready → IsClean (S.Store.view store.now) → (S.Store.view store.now).is_broken ≡ false) }
    ensures tables { IfOk result (λ ready. IsTrue ready → HasTables (S.Store.view store.now)) }
    ensures named { IfOk result (λ ready. IsTrue ready → IsClean (S.Store.view store.now) → IsNamedOnce ((S.Store.view store.now).trees catalog_tree)) }
{
    if store.is_broken() || !has_tables(store) {
        return Ok(false);
    }
    let objects = store.objects(alloc)?;
    Ok(are_named_once(&objects))
}

/// Whether each table of a store is there.
fn has_tables<S: Store>(store: &S) -> bool
    ensures { IsTrue result → HasTables (S.Store.view store.now) }
{
    is_table(store, EVENTS)
        && is_table(store, HEADER)
        && is_table(store, TYPES)
        && is_table(store, OBJECTS)
        && is_table(store, STATES)
        && is_table(store, PREPARED)
        && is_table(store, OUTCOMES)
}

/// Whether a tree is a table.
pub fn is_table<S: Store>(store: &S, tree: u32) -> bool
    ensures { IsTrue result → (S.Store.view store.now).shape tree ≡ Shape.Table }
{
    matches!(store.shape(tree), Shape::Table)
}

/// Whether no object has the name of a table that is made anew but that table.
fn are_named_once(objects: &Vec<Row>) -> bool
    ensures { IsTrue result → IsNamedOnce objects.now.items }
{
    for object in objects {
        if !is_own_named(object) {
            return false;
        }
    }
    true
}

/// Whether an object has the name of such a table only where it is that table.
fn is_own_named(object: &Row) -> bool
    ensures { IsTrue result → IsOwnNamed object.now }
{
    has_own_name(object, EVENTS, "event")
        && has_own_name(object, PREPARED, "prepared")
        && has_own_name(object, OUTCOMES, "outcome")
}

/// Whether an object is the table with this number, or has another name than this.
fn has_own_name(object: &Row, tree: u32, name: &str) -> bool
    ensures { IsTrue result → has_rowid (pos (tree + 1)) object.now ≡ false → column object.now name_column ≢ Text name.now }
{
    is_number(object, 0, tree as u64 + 1) || !is_text(object, NAME, name.as_bytes())
}
