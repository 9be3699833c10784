//! Objects that begin anew, and share their types.

use super::scripts::{Ask, Told, is_answered, store_of};
use crate::tests::any_objects::boxed::made;
use crate::tests::any_objects::one_entry::OneEntry;
use std::process::Abort;
use store::Store;

/// How many objects there are, the most that a store has.
const COUNT: u32 = 256;

/// The first transaction makes this call at every second counter, and gets this answer each time.
fn at_every_second(rt: &impl Abort, store: &mut Store<OneEntry>, call: &'static str, told: Told) {
    assert!(rt; store.begin(0) == Ok(0));
    for pair in 0..COUNT / 2 {
        assert!(rt; is_answered(store, 0, Ask::Call(0, 2 * pair + 1, call, told)));
    }
    assert!(rt; store.commit(0, 0) == Ok(()));
}

/// What every second counter is asked in each epoch, with its reply; the states at which the types of the first two
/// counters then begin; and how many owners the type of the first counter had, and those of the last two, when they
/// were made of them. One owner of each is the list of the types that were made.
struct Life {
    asked: &'static [Option<(&'static str, u8)>],
    begins: [u32; 2],
    owners: [usize; 3],
}

static LIVES: [Life; 3] = [
    // counters at one state share a type
    Life {
        asked: &[None],
        begins: [0, 0],
        owners: [2, 256, 257],
    },
    // counters at two states share two
    Life {
        asked: &[Some(("inc:1", 0))],
        begins: [0, 1],
        owners: [2, 129, 129],
    },
    // types that began at other states are one where the same state is kept
    Life {
        asked: &[Some(("inc:1", 0)), Some(("dec:1", 1))],
        begins: [0, 0],
        owners: [2, 256, 257],
    },
];

/// A store that begins anew, which hands out the events of its epoch but the first one, which is forgotten.
fn begun_anew(rt: &(impl Abort + AllocGlobal), mut store: Store<OneEntry>) -> Store<OneEntry> {
    let count = store.event_count() as usize;
    store.forget(1);
    match store.renew(rt.alloc()) {
        Ok((next, events)) => {
            assert!(rt; events.len() == count.saturating_sub(1));
            next
        }
        Err((store, _)) => {
            let _ = store.close();
            panic!(rt; "no epoch began")
        }
    }
}

/// That counters, each of which has a type of its own at first, share their types so.
fn is_lived(rt: &(impl Abort + AllocGlobal), life: &Life) {
    let mut counters = Vec::new(rt.alloc());
    for _ in 0..COUNT {
        counters.push(made(rt)).ok().expect(rt, "no room");
    }
    let mut store = store_of(rt, counters, 200);
    for asked in life.asked {
        if let Some((call, k)) = asked {
            at_every_second(rt, &mut store, call, Told::Operation(*k));
        }
        store = begun_anew(rt, store);
    }
    for (x, begin) in [(0, life.begins[0]), (1, life.begins[1])] {
        let checked = store.checked(x).expect(rt, "no object");
        assert!(rt; checked.initial() == begin);
    }
    assert!(rt; store.checked(COUNT).is_none());
    let (_, counters) = store.close();
    assert!(rt; counters.len() == COUNT as usize);
    assert!(rt; counters[0].owners == life.owners[0]);
    assert!(rt; counters[COUNT as usize - 2].owners == life.owners[1]);
    assert!(rt; counters[COUNT as usize - 1].owners == life.owners[2]);
}

#[test]
fn counters_at_one_state_share_a_type(rt: HostRuntime) {
    for life in &LIVES {
        is_lived(&rt, life);
    }
}
