//! A store of boxes: objects of both kinds of recovery, and one of a stranger's, each in a box of its
//! own.

use super::scripts::{Ask, Happened, Happening, Row, Told, answers, is_closed, store_of};
use crate::tests::any_objects::boxed::made;
use crate::tests::managers::{deferred, in_place};
use object_trait::{AnyObject, Recovery};
use serial_order::Refusal;
use std::process::Abort;
use test_support::type_texts::{COUNTER, TWIN};

/// A counter in place, a deferred object of the twin type, and a counter with room for one entry.
fn boxes(rt: &(impl Abort + AllocGlobal)) -> Vec<AnyObject> {
    let mut objects = Vec::with_capacity(rt.alloc(), 3).expect(rt, "no room");
    let object = Box::new(rt.alloc(), in_place(rt, COUNTER)).ok();
    objects.push_reserved(AnyObject::new(object.expect(rt, "no memory")));
    let object = Box::new(rt.alloc(), deferred(rt, TWIN)).ok();
    objects.push_reserved(AnyObject::new(object.expect(rt, "no memory")));
    let object = Box::new(rt.alloc(), made(rt)).ok();
    objects.push_reserved(AnyObject::new(object.expect(rt, "no memory")));
    objects
}

const NO_MEMORY: Told = Told::Refused(Refusal::NoMemory);

/// One that aborts, two transactions beside each other, and a last one. The deferred object keeps 4, where `p` and
/// then `q`, in commit order, lead to 3. The object of one entry has no room for a second.
const ROWS: &[Row] = &[
    (3, Ask::Begin(0)),
    (3, Ask::Call(0, 2, "dec:1", Told::None)),
    (3, Ask::Call(0, 2, "inc:1", Told::Operation(0))),
    (3, Ask::Call(0, 2, "dec:1", NO_MEMORY)),
    (3, Ask::Abort(0)),
    (3, Ask::Kept(2, 0)),
    (0, Ask::Begin(1)),
    (1, Ask::Begin(2)),
    (0, Ask::Call(1, 0, "inc:1", Told::Operation(0))),
    (1, Ask::Call(2, 0, "dec:1", Told::Busy(1))),
    (0, Ask::Call(1, 1, "p", Told::Operation(0))),
    (1, Ask::Call(2, 1, "q", Told::Operation(1))),
    (0, Ask::Call(1, 2, "inc:1", Told::Operation(0))),
    (0, Ask::Rollback(1, 1)),
    (0, Ask::Kept(2, 0)),
    (0, Ask::Call(1, 2, "inc:1", Told::Operation(0))),
    (1, Ask::Call(2, 2, "dec:1", Told::Busy(1))),
    (1, Ask::Call(2, 2, "inc:1", NO_MEMORY)),
    (0, Ask::Commit(1)),
    (0, Ask::Kept(0, 1)),
    (0, Ask::Kept(1, 1)),
    (1, Ask::Commit(2)),
    (0, Ask::Kept(1, 4)),
    (0, Ask::Kept(2, 1)),
    (2, Ask::Begin(3)),
    (2, Ask::Call(3, 0, "dec:1", Told::Operation(1))),
    (2, Ask::Kept(0, 0)),
];

/// What happened, with the end of the last.
const HISTORY: &[Happened] = &[
    (3, Happening::Begin { t: 0 }),
    (3, Happening::None { t: 0, x: 2, c: 1 }),
    (3, Happening::Op { t: 0, x: 2, k: 0 }),
    (3, Happening::Abort { t: 0 }),
    (0, Happening::Begin { t: 1 }),
    (1, Happening::Begin { t: 2 }),
    (0, Happening::Op { t: 1, x: 0, k: 0 }),
    (
        1,
        Happening::Busy {
            c: 1,
            t: 2,
            x: 0,
            u: 1,
        },
    ),
    (0, Happening::Op { t: 1, x: 1, k: 0 }),
    (1, Happening::Op { t: 2, x: 1, k: 1 }),
    (0, Happening::Op { t: 1, x: 2, k: 0 }),
    (0, Happening::Rollback { t: 1, n: 1 }),
    (0, Happening::Op { t: 1, x: 2, k: 0 }),
    (
        1,
        Happening::Busy {
            c: 1,
            t: 2,
            x: 2,
            u: 1,
        },
    ),
    (0, Happening::Commit { t: 1 }),
    (1, Happening::Commit { t: 2 }),
    (2, Happening::Begin { t: 3 }),
    (2, Happening::Op { t: 3, x: 0, k: 1 }),
    (2, Happening::Abort { t: 3 }),
];

/// What each object is at in the end.
const KEPT: [u32; 3] = [1, 4, 1];

/// That each object is at the state in its place, whoever looks, and keeps no amount.
fn are_seen<R: Recovery>(rt: &impl Abort, objects: &[R]) {
    for (object, state) in objects.iter().zip(&KEPT) {
        assert!(rt; object.view(7) == *state && object.amount_kept(7, 0, 0).is_none());
    }
}

/// A store of these objects does what the rows say, and hands them back.
fn played<R: Recovery>(rt: &(impl Abort + AllocGlobal), objects: Vec<R>) -> Vec<R> {
    let mut store = store_of(rt, objects, 20);
    answers(rt, &mut store, ROWS);
    is_closed(rt, store, HISTORY, &KEPT)
}

#[test]
fn a_store_of_boxes_answers(rt: HostRuntime) {
    let mut objects = played(&rt, boxes(&rt));
    are_seen(&rt, &objects);
    let last = objects.pop().expect(&rt, "no object");
    assert!(rt; last.into_inner().state() == 1);
}
