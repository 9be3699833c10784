//! What it takes to distinguish states.

ghost use Rattle.exact_tables.specs.Distances.{AreDistances};

use crate::tests::types::{Parts, table_of};
use exact_tables::{Distances, distinguish};
use std::process::Abort;
use type_table::TypeTable;

/// Two states, and the first shortest list that is legal from the first and not from the second, which
/// is empty where the first looks like the second.
type Case = (u16, u16, &'static [u8]);

/// The type of which state 3 looks like state 4, and not the other way round.
static ONE_WAY: Parts = (
    5,
    0,
    &[("p", "ok"), ("q", "ok"), ("r", "ok")],
    &[
        Some(2),
        Some(1),
        None,
        Some(3),
        None,
        None,
        None,
        Some(4),
        None,
        None,
        None,
        None,
        None,
        None,
        Some(4),
    ],
);

/// A semiqueue of at most two items of two elements: its states have no item, one b, two b, one a, one
/// of each, and two a.
static TWO_ITEMS: Parts = (
    6,
    0,
    &[("enq:a", "ok"), ("enq:b", "ok"), ("deq", "a"), ("deq", "b")],
    &[
        Some(3),
        Some(1),
        None,
        None,
        Some(4),
        Some(2),
        None,
        Some(0),
        None,
        None,
        None,
        Some(1),
        Some(5),
        Some(4),
        Some(0),
        None,
        None,
        None,
        Some(1),
        Some(3),
        None,
        None,
        Some(3),
        None,
    ],
);

static ONE_WAY_CASES: [Case; 12] = [
    (0, 0, &[]),
    (0, 1, &[1]),
    (0, 2, &[0]),
    (1, 0, &[]),
    (1, 2, &[0]),
    (2, 0, &[1, 2]),
    (2, 1, &[1]),
    (2, 4, &[1]),
    (3, 0, &[]),
    (3, 4, &[]),
    (4, 0, &[2]),
    (4, 3, &[2]),
];

static TWO_ITEMS_CASES: [Case; 14] = [
    (0, 1, &[0, 0]),
    (0, 3, &[0, 0]),
    (0, 4, &[0]),
    (1, 0, &[3]),
    (1, 3, &[3]),
    (1, 2, &[0]),
    (2, 1, &[3, 3]),
    (2, 4, &[3, 3]),
    (2, 5, &[3]),
    (3, 1, &[2]),
    (4, 5, &[3]),
    (4, 4, &[]),
    (5, 3, &[2, 2]),
    (5, 4, &[2, 2]),
];

/// The list that distinguishes one state of a table from another, or none.
fn told(
    rt: &(impl Abort + AllocGlobal),
    table: &TypeTable,
    distances: &Distances,
    s: u16,
    t: u16,
) -> Vec<u8>
    requires { AreDistances table.now distances.now }
{
    assert!(rt; s < table.states() && t < table.states());
    let list = distinguish(rt.alloc(), distances, table, s, t).expect(rt, "no memory");
    list.unwrap_or(Vec::new(rt.alloc()))
}

/// That these lists distinguish the states of the table of these parts.
fn are_told(rt: &(impl Abort + AllocGlobal), parts: &Parts, cases: &[Case]) {
    let table = table_of(rt, parts).expect(rt, "no table");
    let distances = Distances::new(rt.alloc(), &table).expect(rt, "no memory");
    for (s, t, list) in cases {
        assert!(rt; told(rt, &table, &distances, *s, *t).as_slice() == *list);
    }
}

#[test]
fn states_are_told_apart(rt: HostRuntime) {
    are_told(&rt, &ONE_WAY, &ONE_WAY_CASES);
    are_told(&rt, &TWO_ITEMS, &TWO_ITEMS_CASES);
}
