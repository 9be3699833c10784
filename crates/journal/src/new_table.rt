//! Tables are made anew, which empties them.

ghost use Rattle.std.specs.Prelude.{◌≡◌, OnOk};
ghost use Rattle.sqlite_trees.specs.Objects.{catalog_tree};
ghost use Rattle.sqlite_trees.specs.Tree.{Trees, put_row};
ghost use Rattle.sqlite_trees.specs.View.{IsClean};
ghost use Rattle.journal.specs.EmptyTable.{Empties, EmptiesEpoch, IsListedAnew, ListsAnew, MayEmpty, table_row};
ghost use Rattle.journal.specs.Journal.{IsRemade};

use crate::contents::{EVENTS, PREPARED};
use crate::journal_error::JournalError;
use crate::schema::{EVENT_SQL, PREPARED_SQL};
use sqlite_trees::schema::Object;
use sqlite_trees::store::{Alter, Shape};

/// Makes a table anew by this statement: it is destroyed, which frees its pages, and made with no row.
///
/// # Errors
///
/// The file failed, or memory was refused.
pub fn make_anew<S: Alter>(
    store: &mut S,
    tree: u32,
    name: &str,
    sql: &str,
) -> Result<(), JournalError>
    requires may { IsClean (S.Store.view store.old) → MayEmpty (S.Store.view store.old) }
    requires remade { IsRemade tree name.now }
    ensures ok { OnOk result (IsClean (S.Store.view store.new) → Empties (S.Store.view store.old) (S.Store.view store.new) tree) }
    ensures clean { IsClean (S.Store.view store.new) → IsClean (S.Store.view store.old) }
    ensures crash { (db : Trees) → S.Store.recovers store.new db → S.Store.recovers store.old db }
{
    let object = Object {
        shape: Shape::Table,
        kind: "table",
        name,
        table: name,
        reals: 0,
        sql: Some(sql),
    };
    store.destroy(tree)?;
    store.create(tree, &object)?;
    Ok(())
}

/// Lists a table anew by this statement, which has columns more: its rows stay.
///
/// # Errors
///
/// The file failed, or memory was refused.
pub fn list_anew<S: Alter>(
    store: &mut S,
    tree: u32,
    name: &str,
    sql: &str,
) -> Result<(), JournalError>
    requires may { IsClean (S.Store.view store.old) → MayEmpty (S.Store.view store.old) }
    requires listed { IsListedAnew tree name.now }
    ensures ok { OnOk result (IsClean (S.Store.view store.new) → ListsAnew (S.Store.view store.old) (S.Store.view store.new)) }
    ensures statement { OnOk result (IsClean (S.Store.view store.new) → (S.Store.view store.new).trees catalog_tree
        ≡ put_row (table_row tree name.now sql.now ((S.Store.view store.old).reals tree)) ((S.Store.view store.old).trees catalog_tree)) }
    ensures clean { IsClean (S.Store.view store.new) → IsClean (S.Store.view store.old) }
    ensures crash { (db : Trees) → S.Store.recovers store.new db → S.Store.recovers store.old db }
{
    let object = Object {
        shape: Shape::Table,
        kind: "table",
        name,
        table: name,
        reals: store.reals(tree),
        sql: Some(sql),
    };
    store.relist(&[(tree, object)])?;
    Ok(())
}

/// Makes the tables of what an epoch has anew: its events, and the transactions that were prepared in it.
///
/// # Errors
///
/// The file failed, or memory was refused.
pub fn empty_epoch<S: Alter>(store: &mut S) -> Result<(), JournalError>
    requires { IsClean (S.Store.view store.old) → MayEmpty (S.Store.view store.old) }
    ensures ok { OnOk result (IsClean (S.Store.view store.new) → EmptiesEpoch (S.Store.view store.old) (S.Store.view store.new)) }
    ensures clean { IsClean (S.Store.view store.new) → IsClean (S.Store.view store.old) }
    ensures crash { (db : Trees) → S.Store.recovers store.new db → S.Store.recovers store.old db }
{
    make_anew(store, EVENTS, "event", EVENT_SQL)?;
    make_anew(store, PREPARED, "prepared", PREPARED_SQL)?;
    Ok(())
}
