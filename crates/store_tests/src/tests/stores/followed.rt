//! Stores that follow events that were made before.

use super::objects_of;
use super::scripts::{Happened, Happening, event_of, store_of};
use store::{ReplayFault, Stray, follow, replay};
use test_support::type_texts::COUNTER;
use type_table::Kind;

/// Two begins, and two ups.
static UPS: [Happened; 4] = [
    (9, Happening::Begin { t: 0 }),
    (8, Happening::Begin { t: 1 }),
    (9, Happening::Op { t: 0, x: 0, k: 0 }),
    (8, Happening::Op { t: 1, x: 0, k: 0 }),
];

/// The events before the first stray are made, and no other.
#[test]
fn a_replay_ends_at_a_stray(rt: HostRuntime) {
    let last = event_of(&UPS[3]);
    let events = [event_of(&UPS[1]), event_of(&UPS[2]), last, last];
    let mut store = store_of(&rt, objects_of(&rt, &[(Kind::Undo, COUNTER)]), 20);
    let first = follow(&mut store, &event_of(&UPS[0]));
    let told = replay(&mut store, &events);
    let was = (store.event_count(), store.kept(0));
    let _ = store.close();
    let fault = ReplayFault {
        at: 3,
        why: Stray::NotMade,
    };
    assert!(rt; first == Ok(()) && told == Err(fault));
    assert!(rt; was == (4, Some(2)));
}
