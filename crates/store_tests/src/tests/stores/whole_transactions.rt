//! Whole transactions in one call, by names that no text of words has. Others are in the library's tests in C.

use super::objects_of;
use attempts::{Attempt, AttemptCall, Ending, attempt};
use objects::Object;
use serial_order::Refusal;
use std::alloc::Global;
use std::process::Abort;
use store::Store;
use store_limits::Limits;
use test_support::type_texts::{COUNTER, PURSE};
use type_table::{Kind, Operation};

const LIMITS: Limits = Limits {
    events: 20,
    open: 9,
    objects: 3,
};

/// Calls that are all there.
static THERE: [AttemptCall; 3] = [
    AttemptCall {
        at: 0,
        name: b"inc:1",
    },
    AttemptCall {
        at: 1,
        name: b"inc:1",
    },
    AttemptCall {
        at: 2,
        name: b"take:5",
    },
];

/// Calls of which one isn't there, and the place of that.
static AWAY: [(&[AttemptCall], usize); 2] = [
    (
        &[
            AttemptCall { at: 2, name: b"" },
            AttemptCall { at: 9, name: b"" },
        ],
        0,
    ),
    (
        &[
            AttemptCall {
                at: 0,
                name: b"inc:1",
            },
            AttemptCall {
                at: 1,
                name: b"inc:1 ",
            },
            AttemptCall {
                at: 2,
                name: b"take:1",
            },
        ],
        1,
    ),
];

/// A store of three objects with limits.
fn limited(rt: &(impl Abort + AllocGlobal)) -> Store<Object> {
    let sorts = [
        (Kind::Undo, COUNTER),
        (Kind::Intentions, COUNTER),
        (Kind::Escrow, PURSE),
    ];
    match Store::with_limits(rt.alloc(), objects_of(rt, &sorts), LIMITS) {
        Ok(store) => store,
        Err(_) => panic!(rt; "no store"),
    }
}

/// Whether an attempt ends at this place, as no call has its name.
fn is_ended(store: &mut Store<Object>, alloc: Global, calls: &[AttemptCall], place: usize) -> bool {
    match attempt(store, alloc, 4, calls) {
        Attempt::Ended { at, how } => { (at == place) & (how == Ending::Refused(Refusal::NoCall)) }
        _ => false,
    }
}

/// Whether an attempt is done, with these operations.
fn is_done(store: &mut Store<Object>, alloc: Global, operations: &[Operation]) -> bool {
    match attempt(store, alloc, 4, &THERE) {
        Attempt::Done(those) => those.as_slice() == operations,
        _ => false,
    }
}

#[test]
fn a_call_that_is_not_there_takes_all_back(rt: HostRuntime) {
    let (up, take) = (Operation::listed(0), Operation::with(0, 5));
    let mut store = limited(&rt);
    assert!(rt; store.limits() == LIMITS);
    for (calls, place) in &AWAY {
        assert!(rt; is_ended(&mut store, rt.alloc(), calls, *place));
        assert!(rt; (store.kept(0) == Some(0)) & (store.kept(1) == Some(0)));
        assert!(rt; (store.kept(2) == Some(20)) & (store.open_count() == 0));
    }
    assert!(rt; is_done(&mut store, rt.alloc(), &[up, up, take]));
    assert!(rt; (store.begun() == 3) & (store.kept(2) == Some(15)));
    let _ = store.close();
}
