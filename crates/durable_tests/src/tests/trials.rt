//! What a store in new trees does until its disk stops, and what is found then.

ghost use Rattle.std.specs.Prelude.{IfSome, IsTrue, OnOk};
ghost use Rattle.sqlite_trees.specs.View.{IsClean};
ghost use Rattle.durable_store.specs.Durable.{IsDurable};
ghost use Rattle.journal.specs.Journal.{ShowsCommit};

use super::counters::{IN_PLACE, commits, counts, found, made, texts_of, two_counters};
use super::serving_lines::output;
use super::stops::{Calls, FoundAgain, new_trees};
use super::votes::vote_on;
use durable_store::Durable;
use journal::JournalError;
use serving::{Client, EpochLimits, NoAdditions, NoArchive, serve};
use sqlite_disk::{Crash, Files, Fuse, Memory};
use sqlite_trees::store::Alter;
use std::alloc::Global;
use std::process::Abort;
use std::rt::Clock;
use std::time::Duration;
use store_text::ObjectLine;
use test_support::type_texts::{COUNTER, TWIN};
use type_table::Kind;

/// What a store of two counters does until its disk stops.
#[derive(Clone, Copy)]
pub enum Trial {
    /// A commit is settled, and another epoch is begun.
    Renews,
    /// A commit is settled, and objects are added.
    Grows,
    /// A commit and a prepared transaction are settled, and another epoch is begun.
    Holds,
    /// The same, and objects are added where it begins.
    HoldsAndGrows,
    /// A client is served that says these lines.
    Serves(&'static [u8]),
    /// The same, and once more of the store that is found.
    ServesTwice(&'static [u8]),
}

/// How many of its commits were answered to a client, or of the changes after a commit; and what is found then.
#[derive(Clone, Copy)]
pub struct Seen {
    pub told: usize,
    pub objects: u32,
    pub texts: usize,
    pub events: u32,
    pub prepared: usize,
    /// The states of two objects and of two that may be added.
    pub kept: [Option<u32>; 4],
}

/// What is added: an object of a type that the file doesn't have, and one of a type that it has.
const MORE: [ObjectLine; 2] = [
    ObjectLine {
        kind: Kind::Intentions,
        file: 1,
        name: None,
    },
    IN_PLACE,
];

/// A new store of two counters, or none where the disk stops.
fn begun<S: Alter + Drop>(rt: &(impl Abort + AllocGlobal), trees: S) -> Option<Durable<S>>
    requires { IsClean (S.Store.view trees) → IsTrue (S.Store.view trees).is_numbered }
    ensures { IfSome result (λ store. IsDurable S.Store store) }
{
    found(rt, made(rt, trees, &two_counters(rt))?)
}

/// The first transaction counts up at each object, and its commit is settled.
fn counted_once<S: Alter>(store: &mut Durable<S>) -> Result<(), JournalError>
    requires { IsDurable S.Store store.old }
    ensures sound { OnOk result (IsDurable S.Store store.new) }
    ensures shows { OnOk result (ShowsCommit S.Store store.new.journal) }
{
    let _ = commits(store, 0)?;
    store.settle()
}

/// The next transaction counts up at the second object and is prepared, and both are settled.
fn held_once<S: Alter>(alloc: Global, store: &mut Durable<S>) -> Result<(), JournalError>
    requires { IsDurable S.Store store.old }
    ensures sound { OnOk result (IsDurable S.Store store.new) }
    ensures shows { OnOk result (ShowsCommit S.Store store.new.journal) }
{
    let _ = commits(store, 0)?;
    let _ = store.begin()?;
    let _ = counts(store, 1, 1)?;
    let _ = vote_on(alloc, store, 1, b"a")?;
    store.settle()
}

/// The store after that, or none where the disk stops.
fn counted<S: Alter + Drop>(store: Durable<S>) -> Option<Durable<S>>
    requires { IsDurable S.Store store }
    ensures sound { IfSome result (λ it. IsDurable S.Store it) }
    ensures shows { IfSome result (λ it. ShowsCommit S.Store it.journal) }
{
    let mut store = store;
    match counted_once(&mut store) {
        Ok(()) => Some(store),
        Err(_) => {
            let _ = store.into_trees();
            None
        }
    }
}

/// The same of the prepared one.
fn held<S: Alter + Drop>(alloc: Global, store: Durable<S>) -> Option<Durable<S>>
    requires { IsDurable S.Store store }
    ensures sound { IfSome result (λ it. IsDurable S.Store it) }
    ensures shows { IfSome result (λ it. ShowsCommit S.Store it.journal) }
{
    let mut store = store;
    match held_once(alloc, &mut store) {
        Ok(()) => Some(store),
        Err(_) => {
            let _ = store.into_trees();
            None
        }
    }
}

/// Another epoch is begun, or the disk stops.
fn renewed<S: Alter>(alloc: Global, store: Durable<S>) -> (usize, S)
    requires { IsDurable S.Store store }
{
    let (store, told) = store.renew(alloc);
    (usize::from(matches!(told, Ok(Ok(())))), store.into_trees())
}

/// Objects are added, or the disk stops.
fn extended<S: Alter>(rt: &(impl Abort + AllocGlobal), store: Durable<S>) -> (usize, S)
    requires sound { IsDurable S.Store store }
    requires shows { ShowsCommit S.Store store.journal }
{
    let texts = texts_of(rt, &[COUNTER, TWIN]);
    let (store, told) = store.extend(rt.alloc(), &texts, &MORE);
    (usize::from(matches!(told, Ok(2))), store.into_trees())
}

/// How many commits were answered.
fn commits_in(said: &[u8]) -> usize {
    said.split(|byte| *byte == b'\n')
        .filter(|line| *line == b"done ok".as_slice())
        .count()
}

/// How many commits this store answers to a client that says these lines until its disk stops, where each is a group of
/// its own.
fn served<S: Alter + Drop>(
    rt: &(impl Abort + AllocGlobal + Clock),
    store: Durable<S>,
    lines: &[u8],
) -> (usize, S)
    requires { IsDurable S.Store store }
{
    let mut client = Client::new(output(rt, 1_000));
    let limits = EpochLimits {
        most_events: 1_000,
        drain: Duration::from_secs(3_600),
    };
    let (mut input, mut byte) = (lines, [0; 1]);
    let (store, _) = serve(
        rt,
        rt.alloc(),
        limits,
        store,
        &mut NoAdditions,
        &mut NoArchive,
        &mut input,
        &mut byte,
        &mut client,
    );
    let said = client.into_out().into_inner().into_inner().held;
    (commits_in(&said), store.into_trees())
}

/// The same, once more of the store that is found then.
fn served_twice<S: FoundAgain + Drop, R: Abort + AllocGlobal + Clock>(
    rt: &R,
    store: Durable<S>,
    lines: &[u8],
) -> (usize, S)
    requires { IsDurable S.Store store }
{
    let (_, trees) = served(rt, store, lines);
    let again = found(rt, trees.found_again(rt));
    served(rt, again.expect(rt, "no store is found"), lines)
}

/// This is done, until the disk stops. None where it stops before a commit is settled that is to be.
fn done<S: FoundAgain + Drop, R: Abort + AllocGlobal + Clock>(
    rt: &R,
    store: Durable<S>,
    trial: Trial,
) -> Option<(usize, S)>
    requires { IsDurable S.Store store }
{
    match trial {
        Trial::Renews => Some(renewed(rt.alloc(), counted(store)?)),
        Trial::Grows => Some(extended(rt, counted(store)?)),
        Trial::Holds => Some(renewed(rt.alloc(), held(rt.alloc(), store)?)),
        Trial::HoldsAndGrows => Some(extended(rt, held(rt.alloc(), store)?)),
        Trial::Serves(lines) => Some(served(rt, store, lines)),
        Trial::ServesTwice(lines) => Some(served_twice(rt, store, lines)),
    }
}

/// How many texts of types the file has.
fn text_count<S: Alter>(rt: &(impl Abort + AllocGlobal), store: &mut Durable<S>) -> usize
    requires sound { IsDurable S.Store store.old }
    requires shows { ShowsCommit S.Store store.old.journal }
{
    match store.types(rt.alloc()) {
        Ok(texts) => texts.len(),
        Err(_) => panic!(rt; "no texts"),
    }
}

/// What is seen of this store.
fn seen_of<S: Alter>(store: &Durable<S>, told: usize, texts: usize) -> Seen {
    let seen = store.store();
    Seen {
        told,
        objects: seen.object_count(),
        texts,
        events: seen.event_count(),
        prepared: store.prepared().len(),
        kept: [seen.kept(0), seen.kept(1), seen.kept(2), seen.kept(3)],
    }
}

/// What is found in these trees.
fn seen_in<S: Alter + Drop>(rt: &(impl Abort + AllocGlobal), trees: S, told: usize) -> Seen
    requires { IsClean (S.Store.view trees) → IsTrue (S.Store.view trees).is_numbered }
{
    let mut store = found(rt, trees).expect(rt, "no store is found");
    let texts = text_count(rt, &mut store);
    let seen = seen_of(&store, told, texts);
    let _ = store.into_trees();
    seen
}

/// What is tried in new trees. None where the disk stops too early.
fn tried<S: FoundAgain + Drop, R: Abort + AllocGlobal + Clock>(
    rt: &R,
    trees: S,
    trial: Trial,
) -> Option<Seen>
    requires { IsClean (S.Store.view trees) → IsTrue (S.Store.view trees).is_numbered }
{
    let (told, trees) = done(rt, begun(rt, trees)?, trial)?;
    Some(seen_in(rt, trees.found_again(rt), told))
}

/// The same over any disk: where the disk is named, this costs several times as much to prove.
fn tried_over<D: Crash + Drop, R: Abort + AllocGlobal + Clock>(
    rt: &R,
    files: Files<D>,
    trial: Trial,
) -> Option<Seen>
    requires log { IsTrue (D.Disk.is_usable files.log) }
    requires db { IsTrue (D.Disk.is_usable files.db) }
{
    tried(rt, new_trees(rt, files)?, trial)
}

/// A trial in new files in memory: this many calls are passed on, and each one after fails. None where that was too few
/// for new trees, or for a commit that is to be settled.
pub fn tried_after<R: Abort + AllocGlobal + Clock>(
    rt: &R,
    calls: Calls,
    trial: Trial,
) -> Option<Seen> {
    let files = Files {
        log: Fuse::new(Memory::new(rt.alloc()), calls.log),
        db: Fuse::new(Memory::new(rt.alloc()), calls.db),
    };
    tried_over(rt, files, trial)
}
