//! What `check` and `check_parallel` hand back besides their verdict, and which types are the same.

use crate::tests::type_files::{file_of, is_written};
use declared_types::TypeFile;
use std::process::Abort;
use table_checker::{CheckRefusal, CheckedType, check, check_parallel};
use test_support::texts::changed;
use test_support::type_texts::{COUNTER, IDLE};
use type_table::Kind;

/// The conflicts of the counter.
const PAIRS: &str =
    "conflict undo 0 1\nconflict undo 1 0\nconflict intentions 0 0\nconflict intentions 1 1\n";

/// The counter's text with these conflicts.
fn with_conflicts(rt: &(impl Abort + AllocGlobal), lines: &str) -> Vec<u8> {
    changed(rt.alloc(), COUNTER, PAIRS, lines.as_bytes()).expect(rt, "no memory")
}

/// That a text comes back with the refusal of its first pair that fails.
fn comes_back<R: Abort + AllocGlobal>(
    rt: &R,
    text: &[u8],
    checked: Result<CheckedType, (TypeFile, CheckRefusal)>,
) {
    let (file, refusal) = checked.err().expect(rt, "accepted");
    assert!(rt; refusal == CheckRefusal::NotCommuting { p: 0, q: 1, s: 2 });
    is_written(rt, &file, text);
}

#[test]
fn a_refused_counter_comes_back(rt: HostRuntime) {
    let text = with_conflicts(&rt, "conflict undo 1 0\n");
    comes_back(&rt, &text, check(file_of(&rt, &text), Kind::Undo));
    comes_back(
        &rt,
        &text,
        check_parallel(&rt, file_of(&rt, &text), Kind::Undo),
    );
}

/// The type of a text, accepted for update in place.
fn accepted(rt: &(impl Abort + AllocGlobal), text: &[u8]) -> CheckedType {
    check(file_of(rt, text), Kind::Undo)
        .ok()
        .expect(rt, "refused")
}

/// States, and whether the type of which no run comes to state 1 or 2 begins there: at those of its set alone.
static OF_IDLE: [(u32, bool); 6] = [
    (0, true),
    (1, false),
    (2, false),
    (3, false),
    (65_536, false),
    (u32::MAX, false),
];

/// Whether this type begins anew at a state.
fn begins_at(rt: &(impl Abort + AllocGlobal), checked: &CheckedType, state: u32) -> bool {
    match checked.at(rt.alloc(), state).expect(rt, "no memory") {
        Some(begun) => begun.initial() == state,
        None => false,
    }
}

/// Whether two types are told to be the same, or not to be, whichever is asked.
fn are_compared(one: &CheckedType, other: &CheckedType, is_same: bool) -> bool {
    (one.is_same(other) == is_same) & (other.is_same(one) == is_same)
}

/// The conflicts of the counter, and these with one more of one kind and of the other; and whether that is the type of
/// the counter.
static CONFLICTS: [(&str, bool); 3] = [
    (PAIRS, true),
    (
        "conflict undo 0 0\nconflict undo 0 1\nconflict undo 1 0\nconflict intentions 0 0\nconflict intentions 1 1\n",
        false,
    ),
    (
        "conflict undo 0 1\nconflict undo 1 0\nconflict intentions 0 0\nconflict intentions 0 1\nconflict intentions 1 1\n",
        false,
    ),
];

/// That types are the same where each of their parts is.
fn is_compared(rt: &(impl Abort + AllocGlobal), counter: &CheckedType) {
    for (lines, is_same) in &CONFLICTS {
        let other = accepted(rt, &with_conflicts(rt, lines));
        assert!(rt; are_compared(counter, &other, *is_same));
    }
}

/// That the counter that begins at state 1 is told from it.
fn is_told_elsewhere(rt: &(impl Abort + AllocGlobal), counter: &CheckedType) {
    let other = counter.at(rt.alloc(), 1).expect(rt, "no memory");
    let other = other.expect(rt, "no state");
    let is_at = other.is_at(counter, 1) & !other.is_at(counter, 0) & counter.is_at(&other, 0);
    assert!(rt; is_at & are_compared(counter, &other, false));
}

#[test]
fn types_are_compared(rt: HostRuntime) {
    let counter = accepted(&rt, COUNTER.as_bytes());
    is_compared(&rt, &counter);
    is_told_elsewhere(&rt, &counter);
    let idle = accepted(&rt, IDLE.as_bytes());
    assert!(rt; are_compared(&counter, &idle, false));
    for (state, is_there) in &OF_IDLE {
        assert!(rt; begins_at(&rt, &idle, *state) == *is_there);
    }
}
