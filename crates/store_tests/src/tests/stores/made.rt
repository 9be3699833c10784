//! Of which objects a store is made, and in which order they come back.

use crate::tests::any_objects::boxed::apply_first;
use crate::tests::checked_types::{Sort, checked_of};
use object_trait::{Recovery, Renew};
use objects::Object;
use std::process::Abort;
use store::{NewRefusal, Store};
use test_support::type_texts::COUNTER;
use type_table::{Kind, Operation};

/// The counter for each kind of object, in turn.
static COUNTERS: [Sort; 3] = [
    (Kind::Undo, COUNTER),
    (Kind::Intentions, COUNTER),
    (Kind::Escrow, COUNTER),
];

/// This many objects, of which the one at a place may have been counted up.
pub fn offered(
    rt: &(impl Abort + AllocGlobal),
    count: usize,
    touched: Option<usize>,
) -> Vec<Object> {
    let mut objects = Vec::new(rt.alloc());
    for x in 0..count {
        let (kind, text) = COUNTERS[x % 3];
        let checked = checked_of(rt.alloc(), text, kind).expect(rt, "no type");
        let mut object = Object::new(rt.alloc(), checked);
        if touched == Some(x) {
            apply_first(rt, &mut object, 0, Operation::listed(0));
            object.commit(0);
        }
        objects.push(object).ok().expect(rt, "no room");
    }
    objects
}

/// How many objects, which of them was touched, the limit, and why there is no store.
type Offer = (usize, Option<usize>, u32, Option<NewRefusal>);

static OFFERS: [Offer; 15] = [
    (1, None, 2, None),
    (1, None, 1_000_000, None),
    (1, None, 0, Some(NewRefusal::BadMax)),
    (1, None, 1, Some(NewRefusal::BadMax)),
    (1, None, 1_000_001, Some(NewRefusal::BadMax)),
    (1, None, 4_294_967_295, Some(NewRefusal::BadMax)),
    (0, None, 20, Some(NewRefusal::NoObjects)),
    (0, None, 1, Some(NewRefusal::NoObjects)),
    (256, None, 20, None),
    (257, None, 20, Some(NewRefusal::TooManyObjects)),
    (257, Some(3), 1, Some(NewRefusal::TooManyObjects)),
    (1, Some(0), 20, Some(NewRefusal::NotFresh)),
    (1, Some(0), 1, Some(NewRefusal::NotFresh)),
    (3, Some(2), 20, Some(NewRefusal::NotFresh)),
    (256, Some(255), 20, Some(NewRefusal::NotFresh)),
];

/// That a store is made or refused as in a row, and that its objects come back in their places. One that is made is closed.
fn is_tried(rt: &(impl Abort + AllocGlobal), offer: &Offer) {
    let (count, touched, max, refusal) = *offer;
    let (objects, got) = match Store::new(rt.alloc(), offered(rt, count, touched), max) {
        Ok(store) => (store.close().1, None),
        Err((objects, refusal)) => (objects, Some(refusal)),
    };
    assert!(rt; (got == refusal) & (objects.len() == count));
    for (x, object) in objects.iter().enumerate() {
        assert!(rt; object.checked().kind() == COUNTERS[x % 3].0);
        assert!(rt; object.is_fresh() == (touched != Some(x)));
    }
}

#[test]
fn stores_are_made_of_new_objects(rt: HostRuntime) {
    for offer in &OFFERS {
        is_tried(&rt, offer);
    }
}
