//! Which operations of numbers of any amounts are the first of their calls.

use crate::tests::number_files::number_of;
use test_support::type_texts::PURSE;
use type_table::Operation;

/// An operation: its place, and its amount where it has one.
type Numbered = (u8, Option<u32>);

fn operation_of(numbered: Numbered) -> Operation {
    match numbered {
        (place, Some(amount)) => Operation::with(place, amount),
        (place, None) => Operation::listed(place),
    }
}

/// Which operations of the purse are the first of their calls: none of `give any` whose amount another line lists.
static ARE_FIRST: [(Numbered, bool); 9] = [
    ((0, Some(7)), true),
    ((1, Some(7)), false),
    ((2, None), true),
    ((3, None), false),
    ((4, Some(7)), false),
    ((4, Some(8)), true),
    ((6, None), true),
    ((8, Some(0)), true),
    ((8, Some(20)), false),
];

#[test]
fn calls_have_the_number_of_their_first(rt: HostRuntime) {
    let purse = number_of(&rt, PURSE.as_bytes());
    for (numbered, is_first) in &ARE_FIRST {
        assert!(rt; purse.is_first(operation_of(*numbered)) == *is_first);
    }
}
