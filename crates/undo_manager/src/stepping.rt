//! Steps of a table, the run of what a strike leaves, and that of the done entries alone.

ghost use Rattle.std.specs.Prelude.{◌≡◌, ◌≤◌, ℕ, Some, IsSome, length, drop, filter};
ghost use Rattle.type_table.specs.Table.{IsTable, next};
ghost use Rattle.type_table.specs.Run.{run, IsLegal};
ghost use Rattle.object_trait.specs.Meaning.{log_ops, open_of};
ghost use Rattle.object_trait.specs.Committed.{done_of};
ghost use Rattle.undo_manager.specs.Log.{entries, start_of, stays_in_log};
ghost use Rattle.undo_manager.specs.Rerun.{IsRerun, IsTakenBack};

use crate::log::{place_of, state_before};
use crate::undo_entry::UndoEntry;
use type_table::{Operation, TypeTable, steps_within};

/// The next state of a state in which operation k is legal.
pub fn next_state(table: &TypeTable, s: u16, k: Operation) -> u16
    requires table { IsTable table.now }
    requires legal { IsSome (next table.now s k) }
    ensures { next table.now s k ≡ Some result }
{
    steps_within();
    match table.next(s, table.column(k)) {
        Some(next) => next,
        None => unreachable!(),
    }
}

/// Takes t's last m open entries out of a log that leads to a state, runs what others did since the first
/// of them again, and answers the state after it.
pub fn take_back(table: &TypeTable, log: &mut Vec<UndoEntry>, t: u32, m: u32, state: u16) -> u16
    requires table { IsTable table.now }
    requires held { m ≤ length (open_of t (entries log.old.items)) }
    requires legal { (place : ℕ) → length (open_of t (entries (drop place log.old.items))) ≡ m → IsLegal table.now (Some (start_of (drop place log.old.items) state)) (log_ops (filter (stays_in_log t) (entries (drop place log.old.items)))) }
    ensures { IsTakenBack table.now t m log.old.items state log.new.items result }
{
    let position = place_of(log, t, m);
    let start = state_before(log, position, state);
    rerun(table, log, position, t, start)
}

/// Takes t's open entries at or after a position out of the log, runs the others there again from the
/// state before that position, and answers the state after them.
pub fn rerun(
    table: &TypeTable,
    log: &mut Vec<UndoEntry>,
    position: usize,
    t: u32,
    start: u16,
) -> u16
    requires table { IsTable table.now }
    requires inside { position ≤ length log.old.items }
    requires legal { IsLegal table.now (Some start) (log_ops (filter (stays_in_log t) (entries (drop position log.old.items)))) }
    ensures { IsRerun table.now t position log.old.items start log.new.items result }
{
    let mut state = start;
    let mut kept = position;
    for read in position..log.len() {
        let one = log[read];
        if !one.entry.is_open_of(t) {
            log[kept] = UndoEntry {
                before: state,
                ..one
            };
            kept += 1;
            state = next_state(table, state, one.entry.op);
        }
    }
    log.truncate(kept);
    state
}

/// The state after the done entries of a log alone.
pub fn committed_after(table: &TypeTable, base: u16, log: &[UndoEntry]) -> u16
    requires table { IsTable table.now }
    requires legal { IsLegal table.now (Some base) (log_ops (done_of (entries log.now))) }
    ensures { run table.now (Some base) (log_ops (done_of (entries log.now))) ≡ Some result }
{
    let mut state = base;
    for one in log {
        if one.entry.done {
            state = next_state(table, state, one.entry.op);
        }
    }
    state
}
