//! Files of stores: which are made, which are opened, and what is said of others.

ghost use Rattle.std.specs.Prelude.{IsTrue};
ghost use Rattle.sqlite_trees.specs.View.{IsClean};
ghost use Rattle.journal.specs.Journal.{IsJournal};

use super::counters::{
    IN_PLACE, NewTrees, TWO, contents, created, found, has, texts_of, two_counters,
};
use durable_store::{OpenError, create, open};
use journal::{GivenName, Journal, JournalError, Prepared};
use object_trait::EventKind;
use sqlite_trees::memory::MemStore;
use sqlite_trees::store::{Alter, Shape};
use sqlite_value::row::Row;
use sqlite_value::value::ValueRef;
use std::process::Abort;
use std::test::Fail;
use store_text::ObjectLine;
use test_support::printed::are_printed;
use test_support::type_texts::COUNTER;
use transaction_key::TransactionKey;
use type_table::{Kind, Operation};

/// The text of a type with a fault.
const FAULTY: &str = "type counter\nend\n";

/// Lines of which the second names a text that isn't there.
const UNPLACED: [ObjectLine; 2] = [
    IN_PLACE,
    ObjectLine {
        kind: Kind::Undo,
        file: 1,
        name: None,
    },
];

/// A file: the number of its format, the text of its one type, whether its objects name texts that are there, at which
/// state they begin; and why it isn't opened, if it isn't.
type File = (u32, &'static str, bool, u32, Option<OpenError>);

/// A text with a fault; an object that names none, or begins at a state that isn't its type's. A file of a format
/// before is opened, and one of another format isn't.
static FILES: [File; 14] = [
    (8, FAULTY, true, 0, Some(OpenError::Text(0))),
    (8, COUNTER, false, 0, Some(OpenError::Untyped(1))),
    (8, COUNTER, true, 3, Some(OpenError::Untyped(0))),
    (
        0,
        COUNTER,
        true,
        0,
        Some(OpenError::Journal(JournalError::Foreign)),
    ),
    (1, COUNTER, true, 0, None),
    (2, COUNTER, true, 0, None),
    (3, COUNTER, true, 0, None),
    (4, COUNTER, true, 0, None),
    (5, COUNTER, true, 0, None),
    (6, COUNTER, true, 0, None),
    (7, COUNTER, true, 0, None),
    (8, COUNTER, true, 0, None),
    (9, COUNTER, true, 0, None),
    (
        10,
        COUNTER,
        true,
        0,
        Some(OpenError::Journal(JournalError::Foreign)),
    ),
];

/// Why the trees aren't opened.
fn error_of<S: Alter + Drop>(rt: &(impl Abort + AllocGlobal), trees: S) -> Option<OpenError>
    requires { IsClean (S.Store.view trees) → IsTrue (S.Store.view trees).is_numbered }
{
    match open(rt.alloc(), trees) {
        Ok(store) => {
            let _ = store.into_trees();
            None
        }
        Err((error, _)) => Some(error),
    }
}

/// That each file is opened, or why it isn't.
fn are_opened<S: NewTrees + Drop, R: Abort + AllocGlobal>(rt: &R) {
    for (format, text, are_placed, state, error) in &FILES {
        let lines = if *are_placed { TWO } else { UNPLACED };
        let mut said = contents(rt, text, &lines, *state);
        said.header.format = *format;
        let trees = created(rt, S::no_trees(rt), &said);
        assert!(rt; error_of(rt, trees) == *error);
    }
}

/// The file in these trees.
fn journal_in<S: Alter + Drop>(rt: &(impl Abort + AllocGlobal), trees: S) -> Journal<S>
    requires { IsClean (S.Store.view trees) → IsTrue (S.Store.view trees).is_numbered }
    ensures { IsJournal S.Store result }
{
    match Journal::open(rt.alloc(), trees) {
        Ok((journal, _)) => journal,
        Err(_) => panic!(rt; "the file isn't opened"),
    }
}

/// Adds two events to the file in these trees, of which nothing makes the second: its transaction isn't there.
fn with_a_stray<S: Alter + Drop>(rt: &(impl Abort + AllocGlobal), trees: S) -> S
    requires { IsClean (S.Store.view trees) → IsTrue (S.Store.view trees).is_numbered }
    ensures { IsClean (S.Store.view result) → IsTrue (S.Store.view result).is_numbered }
{
    let mut journal = journal_in(rt, trees);
    let first = journal.append(EventKind::Begin { t: 0 });
    first.expect(rt, "not written");
    let second = journal.append(EventKind::Commit { t: 1 });
    second.expect(rt, "not written");
    journal.commit().expect(rt, "not committed");
    journal.into_store()
}

/// Adds a prepared transaction that hasn't begun to the file in these trees.
fn with_a_stray_row<S: Alter + Drop>(rt: &(impl Abort + AllocGlobal), trees: S) -> S
    requires { IsClean (S.Store.view trees) → IsTrue (S.Store.view trees).is_numbered }
    ensures { IsClean (S.Store.view result) → IsTrue (S.Store.view result).is_numbered }
{
    let mut journal = journal_in(rt, trees);
    let row = Prepared {
        key: TransactionKey::from_bytes(b"a").expect(rt, "no key"),
        given: GivenName { life: 1, number: 0 },
        number: 0,
        until: 0,
    };
    journal.prepare(&row).expect(rt, "not written");
    journal.commit().expect(rt, "not committed");
    journal.into_store()
}

/// That trees without a table are no file of a store, and that an event which nothing makes is told, and a transaction that is
/// prepared and hasn't begun.
fn strays_are_told<S: NewTrees + Drop, R: Abort + AllocGlobal>(rt: &R) {
    let foreign = error_of(rt, S::no_trees(rt));
    assert!(rt; foreign == Some(OpenError::Journal(JournalError::Foreign)));
    let trees = created(rt, S::no_trees(rt), &two_counters(rt));
    let stray = error_of(rt, with_a_stray(rt, trees));
    assert!(rt; stray == Some(OpenError::NotMade(1)));
    let trees = created(rt, S::no_trees(rt), &two_counters(rt));
    let stray = error_of(rt, with_a_stray_row(rt, trees));
    assert!(rt; stray == Some(OpenError::NotPrepared(0)));
}

/// Puts the row of the first event into these trees as a file of format 4 has it: transaction 0 begins.
fn with_an_old_row<S: NewTrees + Drop>(rt: &(impl Abort + AllocGlobal), trees: S) -> S
    ensures { IsTrue (S.Store.view result).is_numbered }
{
    let mut trees = trees;
    assert!(rt; matches!(trees.shape(0), Shape::Table));
    let mut row = Row::new(rt.alloc());
    row.push(ValueRef::Int(0)).expect(rt, "no row");
    row.push(ValueRef::Null).expect(rt, "no row");
    row.push(ValueRef::Text(b"begin")).expect(rt, "no row");
    row.push(ValueRef::Int(0)).expect(rt, "no row");
    row.push(ValueRef::Null).expect(rt, "no row");
    row.push(ValueRef::Null).expect(rt, "no row");
    row.push(ValueRef::Null).expect(rt, "no row");
    trees.put(0, &row).expect(rt, "not written");
    trees.commit().expect(rt, "not committed");
    trees.numbered()
}

/// That the lines of all events are those of the rows, of which the first one has an event as a file of format 4 has it, and the
/// next one two.
fn lines_are_those_of_rows<S: NewTrees + Drop, R: Abort + AllocGlobal>(rt: &R) {
    let mut said = two_counters(rt);
    said.header.format = 4;
    let trees = with_an_old_row(rt, created(rt, S::no_trees(rt), &said));
    let mut journal = journal_in(rt, trees);
    let k = Operation::with(3, 250);
    let counted = journal.append(EventKind::Op { k, t: 0, x: 1 });
    counted.expect(rt, "not written");
    let ended = journal.append(EventKind::Commit { t: 0 });
    ended.expect(rt, "not written");
    journal.commit().expect(rt, "not committed");
    let lines = journal.event_lines(rt.alloc()).expect(rt, "no lines");
    assert!(rt; lines.as_slice() == b"begin 0 0\nop 0 0 1 3 250\ncommit 0 0\n".as_slice());
}

/// Why no new file is made of one text and these lines. A file that is made is opened: its objects are at the initial
/// states of their types, and nothing has happened.
fn error_of_new<S: NewTrees + Drop, R: Abort + AllocGlobal>(
    rt: &R,
    text: &str,
    lines: &[ObjectLine],
) -> Option<OpenError> {
    let alloc = rt.alloc();
    let lines = Vec::from_slice(alloc, lines).expect(rt, "no lines");
    match create(
        alloc,
        S::no_trees(rt),
        [7; 16],
        texts_of(rt, &[text]),
        lines,
    ) {
        Ok(trees) => {
            let store = found(rt, trees);
            has(rt, store.expect(rt, "it isn't opened"), 0, 0);
            None
        }
        Err((error, _)) => Some(error),
    }
}

/// A text, whether the objects name texts that are there, and why no new file is made of them, if none is.
type NewFile = (&'static str, bool, Option<OpenError>);

/// A file is made of two counters, and none of a text with a fault, nor of an object that names none.
static NEW_FILES: [NewFile; 3] = [
    (COUNTER, true, None),
    (FAULTY, true, Some(OpenError::Text(0))),
    (COUNTER, false, Some(OpenError::Untyped(1))),
];

/// That each new file is made, or why it isn't.
fn are_made<S: NewTrees + Drop, R: Abort + AllocGlobal>(rt: &R) {
    for (text, are_placed, error) in &NEW_FILES {
        let lines = if *are_placed { TWO } else { UNPLACED };
        assert!(rt; error_of_new::<S, R>(rt, text, &lines) == *error);
    }
}

#[test]
fn faults_are_told(rt: HostRuntime) {
    are_made::<MemStore, HostRuntime>(&rt);
    are_opened::<MemStore, HostRuntime>(&rt);
    strays_are_told::<MemStore, HostRuntime>(&rt);
}

#[test]
fn lines_of_both_kinds_of_rows(rt: HostRuntime) {
    lines_are_those_of_rows::<MemStore, HostRuntime>(&rt);
}

/// What each error says.
#[test]
fn errors_are_printed(rt: HostRuntime) -> Result<(), Fail> {
    are_printed(
        rt.alloc(),
        &[
            (OpenError::Text(3), "the text of type 3 has a fault"),
            (OpenError::Untyped(0), "object 0 has no type"),
            (OpenError::NotMade(12), "no command makes event 12"),
            (
                OpenError::NotPrepared(2),
                "no transaction is prepared as row 2 says",
            ),
            (OpenError::NoMemory, "memory was refused"),
        ],
    )
}
