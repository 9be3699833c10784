//! A store that begins anew while transactions are open, all of which go on.

use super::carried::{ROWS, SORTS};
use super::objects_of;
use super::scripts::{
    Ask, Happened, Happening, Row, Told, answers, are_events, is_closed, store_of,
};
use object_trait::Event;
use objects::Object;
use std::process::Abort;
use store::{RenewRefusal, Store};
use test_support::type_texts::ONE_WAY;
use type_table::Kind;

/// 1, 2 and 3 go on as 0, 1 and 2, each by its own worker. 2 worked at the last object first, behind 3. Then 1 takes back what
/// the old 2 did last, and all end.
static HISTORY: [Happened; 13] = [
    (1, Happening::Begin { t: 0 }),
    (2, Happening::Begin { t: 1 }),
    (3, Happening::Begin { t: 2 }),
    (1, Happening::Op { t: 0, x: 0, k: 2 }),
    (1, Happening::Op { t: 0, x: 1, k: 1 }),
    (3, Happening::Op { t: 2, x: 2, k: 1 }),
    (2, Happening::Op { t: 1, x: 2, k: 0 }),
    (2, Happening::Op { t: 1, x: 1, k: 0 }),
    (2, Happening::Op { t: 1, x: 0, k: 3 }),
    (4, Happening::Rollback { t: 1, n: 1 }),
    (2, Happening::Commit { t: 1 }),
    (1, Happening::Abort { t: 0 }),
    (3, Happening::Abort { t: 2 }),
];

/// The store that begins anew, with the events of its epoch. Where memory was refused it is tried once more.
fn gone_over(
    rt: &(impl Abort + AllocGlobal),
    store: Store<Object>,
) -> Result<(Store<Object>, Vec<Event>), (Store<Object>, RenewRefusal)> {
    let many = store.event_count();
    match store.renew_unseen(rt.alloc()) {
        Err((store, RenewRefusal::NoMemory)) => {
            assert!(rt; (store.event_count() == many) & (store.open_count() > 0));
            store.renew_unseen(rt.alloc())
        }
        answer => answer,
    }
}

#[test]
fn what_is_open_goes_on(rt: HostRuntime) {
    let mut store = store_of(&rt, objects_of(&rt, &SORTS), 20);
    answers(&rt, &mut store, &ROWS);
    store.forget(4);
    match gone_over(&rt, store) {
        Ok((mut store, events)) => {
            assert!(rt; (events.len() == 11) & (store.begun() == 3));
            are_events(&rt, store.history(), &HISTORY[..9]);
            answers(
                &rt,
                &mut store,
                &[(4, Ask::Rollback(1, 1)), (2, Ask::Commit(1))],
            );
            let _ = is_closed(&rt, store, &HISTORY, &[4, 2, 2]);
        }
        Err((store, _)) => {
            let _ = store.close();
            panic!(rt; "none goes on")
        }
    }
}

/// 0 does q, and stays open.
static OPEN: [Row; 2] = [
    (1, Ask::Begin(0)),
    (1, Ask::Call(0, 0, "q", Told::Operation(1))),
];

#[test]
fn nobody_goes_on_where_a_yes_is_one_way(rt: HostRuntime) {
    let mut store = store_of(&rt, objects_of(&rt, &[(Kind::Undo, ONE_WAY)]), 20);
    answers(&rt, &mut store, &OPEN);
    match gone_over(&rt, store) {
        Err((store, refusal)) => {
            assert!(rt; (refusal == RenewRefusal::StillOpen) & (store.event_count() == 2));
            let _ = store.close();
        }
        Ok((store, _)) => {
            let _ = store.close();
            panic!(rt; "it goes on")
        }
    }
}
