//! The search for the first step that leaves the file's set of states.

ghost use Rattle.std.specs.Prelude.{◌≡◌, ◌<◌, length, MatchOption};
ghost use Rattle.table_checker.specs.Reach.{leaves_at, NeverLeaves, IsFirstLeave, StateStays, IsFirstLeaveOf};

use type_table::{StateSet, TypeTable};

/// A state, and an operation whose step from it leaves a set of states.
#[derive(Clone, Copy, Debug, PartialEq, Eq)]
pub struct Leave {
    pub s: u16,
    pub k: u8,
}

/// The first state of the set, and its first operation, whose next state is outside.
pub fn first_leave(table: &TypeTable, set: &StateSet) -> Option<Leave>
    requires { length set.now ≡ table.now.states }
    ensures { MatchOption result
        (NeverLeaves table.now set.now)
        (λ l. IsFirstLeave table.now set.now l.s l.k) }
{
    for s in 0..table.states() {
        if let Some(k) = first_leave_of(table, set, s) {
            return Some(Leave { s, k });
        }
    }
    None
}

/// The first operation by which a state of the set leads outside.
fn first_leave_of(table: &TypeTable, set: &StateSet, s: u16) -> Option<u8>
    requires fits { length set.now ≡ table.now.states }
    requires state { s < table.now.states }
    ensures { MatchOption result
        (StateStays table.now set.now s)
        (IsFirstLeaveOf table.now set.now s) }
{
    for k in 0..table.op_count() {
        if leaves_at(table, set, s, k) {
            return Some(k);
        }
    }
    None
}

/// Whether a state is of the set and its next state isn't.
fn leaves_at(table: &TypeTable, set: &StateSet, s: u16, k: u8) -> bool
    requires fits { length set.now ≡ table.now.states }
    requires state { s < table.now.states }
    requires operation { k < length table.now.ops }
    ensures { result ≡ leaves_at table.now set.now s k }
{
    if !set.has(s) {
        return false;
    }
    match table.next(s, k) {
        None => false,
        Some(t) => !set.has(t),
    }
}
