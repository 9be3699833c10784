//! What a log goes through at a further operation, at a commit, and where it is settled.

ghost use Rattle.std.specs.Prelude.{◌≡◌, ◌+◌, ◌≤◌, ◌<◌, ◌++◌, ◌∷◌, [], ℕ, length, map, drop, OnOk, OnErr, ◌==◌, ◌&&◌, false, not, All};
ghost use Rattle.object_trait.specs.Meaning.{open_of};
ghost use Rattle.undo_manager.specs.Log.{entries, unsettled, marked_one, start_of};
ghost use Rattle.undo_manager.specs.Opened.{count_of, AreListedOnce, IsRecounted};

use crate::opened::{Opened, count_one_more};
use crate::undo_entry::UndoEntry;
use std::alloc::AllocError;

/// Appends an entry of t, and counts it.
///
/// # Errors
///
/// Memory was refused, and both lists are as they were.
#[inline(always)]
pub fn append(
    log: &mut Vec<UndoEntry>,
    counts: &mut Vec<Opened>,
    one: UndoEntry,
) -> Result<(), AllocError>
    requires listed { AreListedOnce counts.old.items }
    requires fits { count_of one.entry.by counts.old.items < 4294967295 }
    ensures log { OnOk result (log.new.items ≡ log.old.items ++ one ∷ []) }
    ensures counts { OnOk result (IsRecounted one.entry.by (count_of one.entry.by counts.old.items + 1) counts.old.items counts.new.items) }
    ensures same_log { OnErr result (log.new.items ≡ log.old.items) }
    ensures same_counts { OnErr result (counts.new.items ≡ counts.old.items) }
{
    log.reserve(1)?;
    counts.reserve(1)?;
    let by = one.entry.by;
    log.push_reserved(one);
    count_one_more(counts, by);
    Ok(())
}

/// Makes t's open entries done, of which there are `count`. It goes from the back until it has passed
/// them.
pub fn mark(log: &mut Vec<UndoEntry>, t: u32, count: u32)
    requires { length (open_of t (entries log.old.items)) ≡ count }
    ensures { log.new.items ≡ map (marked_one t) log.old.items }
{
    let mut left = count;
    let mut position = log.len();
    while left > 0 {
        position -= 1;
        let mut one = log[position];
        if one.entry.is_open_of(t) {
            one.entry.done = true;
            log[position] = one;
            left -= 1;
        }
    }
}

/// The position from which on the log has m open entries of t, which has at least m. It goes from the back
/// until it has passed them.
pub fn place_of(log: &[UndoEntry], t: u32, m: u32) -> usize
    requires { m ≤ length (open_of t (entries log.now)) }
    ensures inside { result ≤ length log.now }
    ensures exact { length (open_of t (entries (drop result log.now))) ≡ m }
{
    let mut left = m;
    let mut position = log.len();
    while left > 0 {
        position -= 1;
        if log[position].entry.is_open_of(t) {
            left -= 1;
        }
    }
    position
}

/// Takes the leading done entries out of a log that leads to a state, and answers the state before
/// what is left.
pub fn settle(log: &mut Vec<UndoEntry>, state: u16) -> u16
    ensures log { log.new.items ≡ unsettled log.old.items }
    ensures base { result ≡ start_of (unsettled log.old.items) state }
{
    let count = done_front(log);
    if count > 0 {
        take_front(log, count);
    }
    state_before(log, 0, state)
}

/// The number of leading done entries.
fn done_front(log: &[UndoEntry]) -> usize
    ensures inside { result ≤ length log.now }
    ensures exact { drop result log.now ≡ unsettled log.now }
{
    for (count, one) in log.iter().enumerate() {
        if !one.entry.done {
            return count;
        }
    }
    log.len()
}

/// Takes the first entries out.
fn take_front(log: &mut Vec<UndoEntry>, count: usize)
    requires { count ≤ length log.old.items }
    ensures { log.new.items ≡ drop count log.old.items }
{
    let left = log.len() - count;
    log.copy_within(count.., 0);
    log.truncate(left);
}

/// The state before a position of a log that leads to a state.
pub fn state_before(log: &[UndoEntry], position: usize, state: u16) -> u16
    ensures { result ≡ start_of (drop position log.now) state }
{
    if position < log.len() {
        log[position].before
    } else {
        state
    }
}
