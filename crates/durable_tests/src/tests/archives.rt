//! Archives that are given the histories of epochs that end.

ghost use Rattle.std.specs.Prelude.{◌∷◌, [], None, Some, map};
ghost use Rattle.durable_store.specs.Durable.{IsDurable};
ghost use Rattle.serving.specs.Archives.{KeptHistory};
ghost use Rattle.durable_tests.specs.declared.tests.archives.Kept.{Kept};

use super::counters::{NewTrees, found, has, new_store, one_way_store};
use super::serving_lines::{HOUR, Service, told};
use durable_store::Durable;
use journal::Header;
use serving::{Archive, ArchiveFault, ServeFault};
use sqlite_trees::memory::MemStore;
use std::alloc::Global;
use std::process::Abort;
use std::rt::Clock;

/// A history that was kept.
#[derive(Drop)]
struct Kept {
    header: Header,
    text: Vec<u8>,
}

/// An archive in memory, which keeps this many histories and fails at the next one.
#[derive(Drop)]
struct Shelf {
    alloc: Global,
    all: Vec<Kept>,
    room: usize,
}

impl Archive for Shelf {
    ghost kept = { λ s. Some (map (λ (k : Kept). let it : KeptHistory = record { headers = k.header ∷ []; text = k.text.items } in it) s.all.items) };

    fn wants(&self) -> bool {
        true
    }

    fn keep(&mut self, header: &Header, text: &[u8]) -> Result<(), ArchiveFault> {
        if self.all.len() >= self.room {
            return Err(ArchiveFault::Device);
        }
        let text = Vec::from_slice(self.alloc, text)?;
        match self.all.push(Kept {
            header: *header,
            text,
        }) {
            Ok(()) => Ok(()),
            Err(_) => Err(ArchiveFault::NoMemory),
        }
    }
}

/// An archive that asks for none, and counts what it is given nevertheless.
#[derive(Drop)]
struct Unwilling {
    given: u32,
}

impl Archive for Unwilling {
    ghost kept = { λ _. None };

    fn wants(&self) -> bool {
        false
    }

    fn keep(&mut self, _header: &Header, _text: &[u8]) -> Result<(), ArchiveFault> {
        self.given = self.given.saturating_add(1);
        Ok(())
    }
}

/// A shelf with room for this many.
fn empty_shelf(rt: &impl AllocGlobal, room: usize) -> Shelf {
    let alloc = rt.alloc();
    Shelf {
        alloc,
        all: Vec::new(alloc),
        room,
    }
}

/// Whether just one history was kept: this one, under the first life.
fn has_one(shelf: &Shelf, text: &[u8]) -> bool {
    match shelf.all.as_slice() {
        [one] => one.header.life == 1 && one.text.as_slice() == text,
        _ => false,
    }
}

/// How serving ended, and the life and the events of the store then.
type Ended = (Result<(), ServeFault>, u32, u32);

/// A client that asks these lines is served this store with epochs that are full with four events more than they begin with and
/// this archive; what is open may go on for `drain` seconds then where a yes is one-way. The trees of the store come back.
fn served<S: NewTrees + Drop, R: Abort + AllocGlobal + Clock, A: Archive>(
    rt: &R,
    store: Durable<S>,
    archive: &mut A,
    lines: &'static [u8],
    drain: u64,
) -> (Ended, S)
    requires { IsDurable S.Store store }
{
    let how = Service {
        lines,
        piece: 1,
        room: 1_000,
        most_events: 4,
        drain,
    };
    let (_, ended, store) = told(rt, store, archive, &how);
    let told = (ended, store.life(), store.store().event_count());
    (told, store.into_trees())
}

/// Two transactions that commit in the first epoch, and a third in the second.
static COMMITTED: &[u8] =
    b"a begin\nb call 1.0 0 p\nc begin\nd call 1.1 1 p\ne commit 1.0\nf commit 1.1\ng begin\n";

/// The history of the first epoch.
static HISTORY: &[u8] =
    b"object undo 0\nobject undo 0\nbegin 0 0\nop 0 0 0 0\nbegin 0 1\nop 0 1 1 0\ncommit 0 0\n\
    commit 0 1\nend\n";

/// The same, where what is open is aborted.
static OPEN: &[u8] = b"a begin\nb call 1.0 0 p\nc begin\nd call 1.1 1 p\ne begin\nf stats\n";

/// The history of that epoch.
static ABORTED: &[u8] =
    b"object undo 0\nobject undo 0\nbegin 0 0\nop 0 0 0 0\nbegin 0 1\nop 0 1 1 0\nabort 0 0\n\
    abort 0 1\nend\n";

/// Two transactions that are open where the first epoch ends, and commit in the second.
static CARRIED: &[u8] =
    b"a begin\nb call 1.0 0 inc:1\nc begin\nd call 1.1 1 inc:1\ne commit 1.0\nf commit 1.1\ng begin\n";

/// The history of the first epoch, in which they have no end.
static LEFT_OPEN: &[u8] =
    b"object undo 0\nobject intentions 0\nbegin 0 0\nop 0 0 0 0\nbegin 0 1\nop 0 1 1 0\nend\n";

/// That an epoch which is full is kept as the text of its history, under its life, and the next one has begun; where a yes is
/// one-way what is open was aborted before.
fn are_kept<S: NewTrees + Drop, R: Abort + AllocGlobal + Clock>(rt: &R) {
    for (lines, drain, history) in [(COMMITTED, HOUR, HISTORY), (OPEN, 0, ABORTED)] {
        let mut shelf = empty_shelf(rt, 2);
        let store = one_way_store::<S, R>(rt);
        let (told, _) = served::<S, R, Shelf>(rt, store, &mut shelf, lines, drain);
        assert!(rt; (told == (Ok(()), 2, 1)) & has_one(&shelf, history));
    }
}

/// That it is kept too where what is open goes over: with four events, behind which come two commits and a begin.
fn is_carried<S: NewTrees + Drop, R: Abort + AllocGlobal + Clock>(rt: &R) {
    let mut shelf = empty_shelf(rt, 2);
    let store = new_store::<S, R>(rt);
    let (told, _) = served::<S, R, Shelf>(rt, store, &mut shelf, CARRIED, HOUR);
    assert!(rt; (told == (Ok(()), 2, 7)) & has_one(&shelf, LEFT_OPEN));
}

/// That nothing begins anew where the archive fails: what is found in the trees has the whole epoch.
fn is_held<S: NewTrees + Drop, R: Abort + AllocGlobal + Clock>(rt: &R) {
    let mut shelf = empty_shelf(rt, 0);
    let store = one_way_store::<S, R>(rt);
    let (told, trees) = served::<S, R, Shelf>(rt, store, &mut shelf, COMMITTED, HOUR);
    let found = found(rt, trees.numbered());
    has(rt, found.expect(rt, "no store is found"), 6, 2);
    let fault = ServeFault::Archive(ArchiveFault::Device);
    assert!(rt; (told == (Err(fault), 1, 6)) & shelf.all.is_empty());
}

/// That an archive that asks for none is given none.
fn is_let_go<S: NewTrees + Drop, R: Abort + AllocGlobal + Clock>(rt: &R) {
    let mut none = Unwilling { given: 0 };
    let store = one_way_store::<S, R>(rt);
    let (told, _) = served::<S, R, Unwilling>(rt, store, &mut none, COMMITTED, HOUR);
    assert!(rt; (told == (Ok(()), 2, 1)) & (none.given == 0));
}

#[test]
fn epochs_that_end_are_kept(rt: HostRuntime) {
    are_kept::<MemStore, HostRuntime>(&rt);
    is_carried::<MemStore, HostRuntime>(&rt);
    is_held::<MemStore, HostRuntime>(&rt);
    is_let_go::<MemStore, HostRuntime>(&rt);
}
