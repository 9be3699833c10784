//! A new file of a store.

ghost use Rattle.std.specs.Prelude.{◌≡◌, ◌≢◌, ◌<◌, ◌^◌, true, length, IfOk, OnOk, IsTrue};
ghost use Rattle.std.specs.List.{AllByRecursion};
ghost use Rattle.sqlite_value.specs.Order.{column};
ghost use Rattle.sqlite_value.specs.declared.value.Value.TheVariants.{Text};
ghost use Rattle.sqlite_trees.specs.Tree.{Trees};
ghost use Rattle.sqlite_trees.specs.Objects.{catalog_tree};
ghost use Rattle.sqlite_trees.specs.View.{IsClean};
ghost use Rattle.journal.specs.Journal.{Clean, IsJournal, IsOpen, ShowsCommit, durable, name_column, written};
ghost use Rattle.journal.specs.Said.{contents};

use crate::cells::is_text;
use crate::contents::{FileContents, HEADER, NAME, OBJECTS, OUTCOMES, STATES, TYPES};
use crate::entry::FilledEntry;
use crate::found_file::is_table;
use crate::journal::Journal;
use crate::journal_error::JournalError;
use crate::schema::TABLES;
use crate::table::{append, has_no_rows};
use sqlite_trees::schema::Object;
use sqlite_trees::store::{Alter, Shape, Store};
use sqlite_value::row::Row;
use std::alloc::{AllocError, Global};

/// Makes the tables of a store.
///
/// # Errors
///
/// `Foreign` where one of their numbers or names is taken; the file failed, or memory was refused.
pub fn make_tables<S: Alter>(alloc: Global, store: &mut S) -> Result<(), JournalError>
    requires { IsClean (S.Store.view store.old) → IsTrue (S.Store.view store.old).is_numbered }
    ensures numbered { OnOk result (IsClean (S.Store.view store.new) → IsTrue (S.Store.view store.new).is_numbered) }
    ensures clean { IsClean (S.Store.view store.new) → IsClean (S.Store.view store.old) }
    ensures crash { (db : Trees) → S.Store.recovers store.new db → S.Store.recovers store.old db }
{
    for tree in 0..TABLES.len() {
        let (name, sql) = TABLES[tree];
        make_table(alloc, store, tree as u32, name, sql)?;
    }
    Ok(())
}

/// Makes one table.
///
/// # Errors
///
/// As `make_tables`.
fn make_table<S: Alter>(
    alloc: Global,
    store: &mut S,
    tree: u32,
    name: &str,
    sql: &str,
) -> Result<(), JournalError>
    requires low { tree < 65536 }
    requires numbered { IsClean (S.Store.view store.old) → IsTrue (S.Store.view store.old).is_numbered }
    ensures numbered { OnOk result (IsClean (S.Store.view store.new) → IsTrue (S.Store.view store.new).is_numbered) }
    ensures clean { IsClean (S.Store.view store.new) → IsClean (S.Store.view store.old) }
    ensures crash { (db : Trees) → S.Store.recovers store.new db → S.Store.recovers store.old db }
{
    if !is_free(alloc, store, tree, name)? {
        return Err(JournalError::Foreign);
    }
    let object = Object {
        shape: Shape::Table,
        kind: "table",
        name,
        table: name,
        reals: 0,
        sql: Some(sql),
    };
    store.create(tree, &object)?;
    Ok(())
}

/// Whether no tree has this number, and no object this name.
fn is_free<S: Alter>(alloc: Global, store: &S, tree: u32, name: &str) -> Result<bool, AllocError>
    ensures unused { IfOk result (λ free. IsTrue free → (S.Store.view store.now).shape tree ≡ Shape.Absent) }
    ensures unnamed { IfOk result (λ free. IsTrue free → IsClean (S.Store.view store.now) → AllByRecursion (λ r. column r name_column ≢ Text name.now) ((S.Store.view store.now).trees catalog_tree)) }
{
    if !matches!(store.shape(tree), Shape::Absent) {
        return Ok(false);
    }
    let objects = store.objects(alloc)?;
    Ok(has_none_named(&objects, name))
}

/// Whether none of these objects has this name.
fn has_none_named(objects: &Vec<Row>, name: &str) -> bool
    ensures { IsTrue result → AllByRecursion (λ r. column r name_column ≢ Text name.now) objects.now.items }
{
    for object in objects {
        if is_text(object, NAME, name.as_bytes()) {
            return false;
        }
    }
    true
}

/// Writes the values of a table that is empty.
///
/// # Errors
///
/// `Foreign` where there is no such table; the file failed, or memory was refused.
fn write_all<S: Store, E: FilledEntry>(
    store: &mut S,
    table: u32,
    entries: &[E],
    row: &mut Row,
) -> Result<(), JournalError>
    requires few { length entries.now < 2 ^ 32 }
    requires numbered { IsClean (S.Store.view store.old) → IsTrue (S.Store.view store.old).is_numbered }
    ensures numbered { OnOk result (IsClean (S.Store.view store.new) → IsTrue (S.Store.view store.new).is_numbered) }
    ensures clean { IsClean (S.Store.view store.new) → IsClean (S.Store.view store.old) }
    ensures crash { (db : Trees) → S.Store.recovers store.new db → S.Store.recovers store.old db }
{
    if !is_table(store, table) {
        return Err(JournalError::Foreign);
    }
    for position in 0..entries.len() {
        append(store, table, position as u64, &entries[position], row)?;
    }
    Ok(())
}

/// Writes what a new file says of itself and of its objects into its tables, and commits it.
///
/// # Errors
///
/// `Foreign` where there are too many of something; the file failed, or memory was refused.
fn write_new<S: Store>(
    store: &mut S,
    said: &FileContents,
    row: &mut Row,
) -> Result<(), JournalError>
    requires { IsClean (S.Store.view store.old) → IsTrue (S.Store.view store.old).is_numbered }
    ensures numbered { OnOk result (IsClean (S.Store.view store.new) → IsTrue (S.Store.view store.new).is_numbered) }
    ensures clean { IsClean (S.Store.view store.new) → IsClean (S.Store.view store.old) }
{
    write_all(store, HEADER, &[said.header], row)?;
    write_all(store, TYPES, few(&said.types)?, row)?;
    write_all(store, OBJECTS, few(&said.objects)?, row)?;
    write_all(store, STATES, few(&said.states)?, row)?;
    store.commit()?;
    Ok(())
}

/// The values, where they are fewer than 4,294,967,296.
fn few<E>(entries: &Vec<E>) -> Result<&[E], JournalError>
    ensures { IfOk result (λ few. length few.now < 2 ^ 32) }
{
    if entries.len() > u32::MAX as usize {
        return Err(JournalError::Foreign);
    }
    Ok(entries.as_slice())
}

/// Whether what was read of a new file is what was written.
fn is_same(found: &FileContents, said: &FileContents) -> bool
    ensures { result ≡ true → contents found.now ≡ contents said.now }
{
    if !are_none(&found.events, &said.events) {
        return false;
    }
    if !are_none(&found.prepared, &said.prepared) {
        return false;
    }
    if !found.header.is_same(&said.header) {
        return false;
    }
    if !are_same(&found.objects, &said.objects) {
        return false;
    }
    if !are_same(&found.states, &said.states) {
        return false;
    }
    are_same(&found.types, &said.types)
}

/// Whether neither list has any.
fn are_none<E>(found: &[E], said: &[E]) -> bool
    ensures { result ≡ true → found.now ≡ said.now }
{
    found.is_empty() && said.is_empty()
}

/// Whether two lists of values are the same.
fn are_same<E: FilledEntry>(found: &[E], said: &[E]) -> bool
    ensures { result ≡ true → found.now ≡ said.now }
{
    if found.len() != said.len() {
        return false;
    }
    for i in 0..found.len() {
        if !found[i].is_same(&said[i]) {
            return false;
        }
    }
    true
}

impl<S: Alter> Journal<S> {
    /// Makes the tables of a new file, writes what it says, commits that, and opens it. What is read back is
    /// compared with what was to be written.
    ///
    /// # Errors
    ///
    /// `Foreign` where there is another table, an event, or a prepared transaction; the file failed, or memory was refused.
    /// The trees come back.
    pub fn create(
        alloc: Global,
        mut store: S,
        said: &FileContents,
    ) -> Result<Journal<S>, (JournalError, S)>
        requires { IsClean (S.Store.view store) → IsTrue (S.Store.view store).is_numbered }
        ensures kept { IfOk result (λ j. IsJournal S.Store j) }
        ensures settled { IfOk result (λ j. Clean S.Store j → written S.Store j ≡ durable S.Store j) }
        ensures is_open { IfOk result (λ j. Clean S.Store j → IsOpen S.Store j) }
        ensures shows { IfOk result (λ j. ShowsCommit S.Store j) }
        ensures said { IfOk result (λ j. Clean S.Store j → durable S.Store j ≡ contents said.now) }
    {
        let mut row = Row::new(alloc);
        if let Err(error) = make_tables(alloc, &mut store) {
            return Err((error, store));
        }
        if let Err(error) = write_new(&mut store, said, &mut row) {
            return Err((error, store));
        }
        let (mut journal, found) = Journal::open(alloc, store)?;
        if !is_same(&found, said) {
            return Err((JournalError::Foreign, journal.into_store()));
        }
        match has_no_rows(&mut journal.store, OUTCOMES, &mut journal.row) {
            Ok(true) => Ok(journal),
            Ok(false) => Err((JournalError::Foreign, journal.into_store())),
            Err(error) => Err((error, journal.into_store())),
        }
    }
}
