//! Relations over states.

use equi_cert::Relation;

/// A pair may be added twice. A copy lacks a pair that is added after it was made.
#[test]
fn copies_keep_their_pairs(rt: HostRuntime) {
    let mut relation = Relation::new(rt.alloc(), 3).expect(&rt, "no memory");
    relation.add(0, 1);
    relation.add(0, 1);
    let copy = relation.copy(rt.alloc()).expect(&rt, "no memory");
    relation.add(1, 2);
    let of_copy = copy.has(0, 1) & copy.has(1, 1) & !copy.has(1, 2) & !copy.has(1, 0);
    assert!(rt; of_copy & relation.has(0, 1) & relation.has(1, 2) & (copy.states() == 3));
}
