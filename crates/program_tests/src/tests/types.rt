//! Tables and the order of their faults, and sets of states.

ghost use Rattle.std.specs.Prelude.{◌≡◌, length};

use declared_types::is_whole;
use std::process::Abort;
use type_table::{Name, Op, StateSet, TableError, TypeTable};

/// The parts of a table: how many states, the first of them, the operations, and a step for each state
/// and operation.
pub type Parts = (
    u16,
    u16,
    &'static [(&'static str, &'static str)],
    &'static [Option<u16>],
);

fn name_of(rt: &impl Abort, text: &str) -> Name {
    Name::new(text).expect(rt, "no name")
}

fn ops_of(rt: &(impl Abort + AllocGlobal), rows: &[(&str, &str)]) -> Vec<Op> {
    let mut ops = Vec::new(rt.alloc());
    for (call, reply) in rows {
        let call = name_of(rt, call);
        let reply = name_of(rt, reply);
        ops.push(Op { call, reply }).expect(rt, "no memory");
    }
    ops
}

/// The table of these parts, or what is wrong with them.
pub fn table_of(rt: &(impl Abort + AllocGlobal), parts: &Parts) -> Result<TypeTable, TableError> {
    let (states, initial, ops, steps) = *parts;
    let ops = ops_of(rt, ops);
    let steps = Vec::from_slice(rt.alloc(), steps).expect(rt, "no memory");
    TypeTable::new(name_of(rt, "made"), states, initial, ops, steps)
}

/// Parts of a table, and what is wrong with them. Of two faults the earlier one is named.
static FAULTS: [(Parts, Option<TableError>); 12] = [
    ((2, 1, &[("p", "ok")], &[Some(1), None]), None),
    ((0, 0, &[("p", "ok")], &[]), Some(TableError::BadCount)),
    ((1, 0, &[], &[]), Some(TableError::BadCount)),
    ((2, 0, &[("p", "ok")], &[None]), Some(TableError::BadCount)),
    (
        (1025, 0, &[("p", "ok")], &[None; 1025]),
        Some(TableError::BadCount),
    ),
    ((1024, 1023, &[("p", "ok")], &[None; 1024]), None),
    (
        (2, 2, &[("p", "ok")], &[None, None]),
        Some(TableError::BadInitial),
    ),
    (
        (2, 0, &[("p", "ok")], &[None, Some(2)]),
        Some(TableError::BadStep),
    ),
    (
        (1, 0, &[("p", "ok"), ("p", "ok")], &[None, None]),
        Some(TableError::TwiceOp),
    ),
    ((2, 2, &[("p", "ok")], &[None]), Some(TableError::BadCount)),
    (
        (2, 2, &[("p", "ok")], &[None, Some(2)]),
        Some(TableError::BadInitial),
    ),
    (
        (1, 0, &[("p", "ok"), ("p", "ok")], &[Some(1), None]),
        Some(TableError::BadStep),
    ),
];

#[test]
fn faults_come_in_order(rt: HostRuntime) {
    for (parts, fault) in &FAULTS {
        assert!(rt; table_of(&rt, parts).err() == *fault);
    }
}

/// Whether the states of a set of three are these.
fn has_states(set: &StateSet, states: [bool; 3]) -> bool
    requires { length set.now ≡ 3 }
{
    [set.has(0), set.has(1), set.has(2)] == states
}

#[test]
fn sets_hold_what_was_added(rt: HostRuntime) {
    let all = StateSet::all(1024);
    let mut set = StateSet::empty(3);
    let is_empty = has_states(&set, [false, false, false]) & !is_whole(&set, 3);
    set.add(1);
    set.add(1);
    let has_one = has_states(&set, [false, true, false]);
    set.add(2);
    let lacks_one = !is_whole(&set, 3);
    set.add(0);
    let is_all = is_whole(&set, 3) & all.has(0) & all.has(1023);
    assert!(rt; is_empty & has_one & lacks_one & is_all);
}
