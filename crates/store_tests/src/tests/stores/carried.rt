//! A store that begins anew while transactions are open, and with objects more.

use super::made::offered;
use super::objects_of;
use super::scripts::{Ask, Happened, Happening, Row, Told, answers, are_events, is_closed};
use crate::tests::checked_types::Sort;
use object_trait::Event;
use objects::Object;
use std::process::Abort;
use store::{CarryRefusal, Store};
use store_limits::Limits;
use test_support::type_texts::{COUNTER, SEMIQUEUE};
use type_table::Kind;

/// One for each kind of recovery.
pub static SORTS: [Sort; 3] = [
    (Kind::Undo, SEMIQUEUE),
    (Kind::Intentions, COUNTER),
    (Kind::Escrow, COUNTER),
];

/// 0 puts an a and a b, counts both counters up, and commits. 1 takes the a, so 2 takes the b, and 3 is done at the last
/// object before 2 is.
pub static ROWS: [Row; 15] = [
    (1, Ask::Begin(0)),
    (1, Ask::Call(0, 0, "enq:a", Told::Operation(0))),
    (1, Ask::Call(0, 0, "enq:b", Told::Operation(1))),
    (1, Ask::Call(0, 1, "inc:1", Told::Operation(0))),
    (1, Ask::Call(0, 2, "inc:1", Told::Operation(0))),
    (1, Ask::Commit(0)),
    (1, Ask::Begin(1)),
    (2, Ask::Begin(2)),
    (3, Ask::Begin(3)),
    (1, Ask::Call(1, 0, "deq", Told::Operation(2))),
    (1, Ask::Call(1, 1, "dec:1", Told::Operation(1))),
    (3, Ask::Call(3, 2, "dec:1", Told::Operation(1))),
    (2, Ask::Call(2, 2, "inc:1", Told::Operation(0))),
    (2, Ask::Call(2, 1, "inc:1", Told::Operation(0))),
    (2, Ask::Call(2, 0, "deq", Told::Operation(3))),
];

/// Which transactions are to be carried, how many objects are to be added, which of them was touched, and why none begins.
type Refused = (&'static [u32], usize, Option<usize>, CarryRefusal);

/// One that ended, one that never began, one twice, and two that fall.
static STRAYS: [Refused; 4] = [
    (&[0], 0, None, CarryRefusal::NotOpen),
    (&[2, 4], 0, None, CarryRefusal::NotOpen),
    (&[2, 2], 0, None, CarryRefusal::NotOpen),
    (&[3, 2], 0, None, CarryRefusal::NotOpen),
];

/// Where there is a place for one object more. The first reason is told.
static TOO_MUCH: [Refused; 4] = [
    (&[3, 2], 2, Some(0), CarryRefusal::NotOpen),
    (&[2, 3], 2, Some(0), CarryRefusal::TooManyObjects),
    (&[2, 3], 2, None, CarryRefusal::TooManyObjects),
    (&[2, 3], 1, Some(0), CarryRefusal::NotFresh),
];

/// 2 and 3 are carried, as 0 and 1. Object after object they do again what they did, and the b is taken though the a is
/// there. Then 0 commits, and 1 aborts.
static HISTORY: [Happened; 8] = [
    (7, Happening::Begin { t: 0 }),
    (7, Happening::Begin { t: 1 }),
    (7, Happening::Op { t: 0, x: 0, k: 3 }),
    (7, Happening::Op { t: 0, x: 1, k: 0 }),
    (7, Happening::Op { t: 1, x: 2, k: 1 }),
    (7, Happening::Op { t: 0, x: 2, k: 0 }),
    (2, Happening::Commit { t: 0 }),
    (7, Happening::Abort { t: 1 }),
];

/// A store in which this was done, with places for so many objects. Its first event was forgotten.
fn opened(rt: &(impl Abort + AllocGlobal), places: u32) -> Store<Object> {
    let limits = Limits {
        events: 20,
        open: 3,
        objects: places,
    };
    let Ok(mut store) = Store::with_limits(rt.alloc(), objects_of(rt, &SORTS), limits) else {
        panic!(rt; "no store")
    };
    answers(rt, &mut store, &ROWS);
    store.forget(1);
    store
}

/// A store that begins anew by worker 7 with these transactions and with so many objects more, with the events of its epoch; or
/// why not, with the store as it was. Where memory was refused it is tried once more.
fn carried(
    rt: &(impl Abort + AllocGlobal),
    store: Store<Object>,
    those: &[u32],
    added: usize,
    touched: Option<usize>,
) -> Result<(Store<Object>, Vec<Event>), (Store<Object>, CarryRefusal)> {
    let many = store.event_count();
    match store.carry(rt.alloc(), 7, those, offered(rt, added, touched)) {
        Err((store, CarryRefusal::NoMemory)) => {
            assert!(rt; (store.event_count() == many) & (store.open_count() == 3));
            store.carry(rt.alloc(), 7, those, offered(rt, added, touched))
        }
        answer => answer,
    }
}

/// That none begins, why, and that the store is as it was.
fn is_refused(
    rt: &(impl Abort + AllocGlobal),
    store: Store<Object>,
    refused: &Refused,
) -> Store<Object> {
    let (those, added, touched, why) = *refused;
    match carried(rt, store, those, added, touched) {
        Err((store, refusal)) => {
            assert!(rt; (refusal == why) & (store.event_count() == 15));
            assert!(rt; (store.open_count() == 3) & (store.object_count() == 3));
            store
        }
        Ok((store, _)) => {
            let _ = store.close();
            panic!(rt; "these are carried")
        }
    }
}

/// What comes of it where 2 and 3 are carried, and so many objects are added.
fn begun_anew(
    rt: &(impl Abort + AllocGlobal),
    store: Store<Object>,
    added: usize,
) -> Store<Object> {
    match carried(rt, store, &[2, 3], added, None) {
        Ok((store, events)) => {
            assert!(rt; events.len() == 14);
            are_events(rt, store.history(), &HISTORY[..6]);
            let kept = (store.kept(0), store.kept(1), store.kept(2));
            assert!(rt; kept == (Some(3), Some(1), Some(1)));
            assert!(rt; (store.begun() == 2) & (store.open_count() == 2));
            store
        }
        Err((store, _)) => {
            let _ = store.close();
            panic!(rt; "none are carried")
        }
    }
}

#[test]
fn two_of_three_are_carried(rt: HostRuntime) {
    let mut store = opened(&rt, 3);
    for refused in &STRAYS {
        store = is_refused(&rt, store, refused);
    }
    let mut store = begun_anew(&rt, store, 0);
    answers(&rt, &mut store, &[(2, Ask::Commit(0))]);
    let _ = is_closed(&rt, store, &HISTORY, &[3, 2, 2]);
}

/// A counter comes behind the others, and a carried transaction counts it up.
#[test]
fn an_object_is_added_to_those_that_are_open(rt: HostRuntime) {
    let mut store = opened(&rt, 4);
    for refused in &TOO_MUCH {
        store = is_refused(&rt, store, refused);
    }
    let mut store = begun_anew(&rt, store, 1);
    assert!(rt; (store.object_count() == 4) & (store.kept(3) == Some(0)));
    let counted = [
        (2, Ask::Call(0, 3, "inc:1", Told::Operation(0))),
        (2, Ask::Commit(0)),
    ];
    answers(&rt, &mut store, &counted);
    assert!(rt; (store.kept(3) == Some(1)) & (store.committed(3) == Some(1)));
    let (history, objects) = store.close();
    assert!(rt; (history.len() == 9) & (objects.len() == 4));
}
