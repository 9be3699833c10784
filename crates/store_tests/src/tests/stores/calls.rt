//! The calls of a type, by name and by number.

ghost use Rattle.declared_types.specs.Declarations.{table_of};
ghost use Rattle.object_calls.specs.Calls.{HoldsCalls};

use crate::tests::checked_types::checked_of;
use declared_types::DeclaredType;
use object_calls::{Call, CallTable};
use std::process::Abort;
use test_support::type_texts::{PURSE, SEMIQUEUE};
use type_table::{Kind, Operation};

/// A call's name, its number, as a place and an amount where it has one, and the bits of its operations, where
/// it is a call.
type Row = (&'static str, u8, Option<u32>, Option<u64>);

/// Operations 2 and 3, and operation 1 alone.
static OF_A_TABLE: [Row; 5] = [
    ("deq", 2, None, Some(12)),
    ("enq:b", 1, None, Some(2)),
    ("enq", 3, None, None),
    ("", 255, None, None),
    ("deq:2", 2, Some(2), None),
];

/// Each line has two places, and `value` the bits of its line too.
static OF_A_NUMBER: [Row; 12] = [
    ("take:17", 0, Some(17), Some(3)),
    ("take:100", 0, Some(100), Some(3)),
    ("give:7", 2, None, Some(12)),
    ("give:9", 4, Some(9), Some(48)),
    ("atleast:5", 6, None, Some(192)),
    ("value", 8, Some(0), Some(768)),
    ("take:0", 0, Some(0), None),
    ("take:007", 4, Some(7), None),
    ("take:101", 0, Some(101), None),
    ("take:any", 0, None, None),
    ("take", 1, Some(17), None),
    ("value:20", 8, Some(20), None),
];

/// That a call is found by its name and by its number, or isn't.
fn is_found(rt: &impl Abort, declared: &DeclaredType, calls: &CallTable, row: &Row)
    requires { HoldsCalls (table_of declared.now) calls.now }
{
    let (name, place, amount, bits) = *row;
    let first = match amount {
        Some(n) => Operation::with(place, n),
        None => Operation::listed(place),
    };
    let call = match bits {
        Some(operations) => Some(Call { first, operations }),
        None => None,
    };
    assert!(rt; calls.by_name(declared, name.as_bytes()) == call);
    assert!(rt; calls.by_number(declared, first) == call);
}

/// That the calls of a type are found so.
fn are_found(rt: &(impl Abort + AllocGlobal), text: &str, kind: Kind, rows: &[Row]) {
    let checked = checked_of(rt.alloc(), text, kind).expect(rt, "no type");
    let declared = checked.declared();
    let calls = CallTable::new(rt.alloc(), declared).expect(rt, "no memory");
    for row in rows {
        is_found(rt, declared, &calls, row);
    }
}

#[test]
fn calls_are_found(rt: HostRuntime) {
    are_found(&rt, SEMIQUEUE, Kind::Undo, &OF_A_TABLE);
    are_found(&rt, PURSE, Kind::Escrow, &OF_A_NUMBER);
}
