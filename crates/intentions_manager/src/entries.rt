//! The entries of the log of intentions. All of them are open.

ghost use Rattle.std.specs.Prelude.{◌≡◌, ◌<◌, ◌≤◌, false, not, length, All, ◌==◌, ◌&&◌};
ghost use Rattle.std.specs.List.{find};
ghost use Rattle.std.specs.Option.{option_map};
ghost use Rattle.type_table.specs.ConflictTable.{conflicts};
ghost use Rattle.object_trait.specs.Meaning.{is_open_of};
ghost use Rattle.intentions_manager.specs.Kept.{LogHasBits};

use object_trait::LogEntry;
use type_table::{ConflictTable, Operation};

/// Whether an open entry is t's.
pub fn is_of(entry: &LogEntry, t: u32) -> bool
    requires { entry.now.done ≡ false }
    ensures { result ≡ is_open_of t entry.now }
{
    entry.by == t
}

/// Whose entry is the first with which operation k conflicts, and which isn't t's. The word has the bit
/// of each entry's operation, so that a look at the log can be spared.
pub fn first_conflict(
    log: &Vec<LogEntry>,
    word: u64,
    table: &ConflictTable,
    t: u32,
    k: Operation,
) -> Option<u32>
    requires requested { k < length table.now }
    requires few { length table.now ≤ 64 }
    requires held { All (λ e. e.op < length table.now) log.now.items }
    requires bits { LogHasBits word log.now.items }
    ensures { result ≡ option_map (λ e. e.by) (find (λ e. not (e.by == t) && conflicts table.now k e.op) log.now.items) }
{
    if table.row(column(k)) & word == 0 {
        return None;
    }
    conflict_in(log, table, t, k)
}

/// The same by a look at the log.
fn conflict_in(log: &Vec<LogEntry>, table: &ConflictTable, t: u32, k: Operation) -> Option<u32>
    requires requested { k < length table.now }
    requires few { length table.now ≤ 64 }
    requires held { All (λ e. e.op < length table.now) log.now.items }
    ensures { result ≡ option_map (λ e. e.by) (find (λ e. not (e.by == t) && conflicts table.now k e.op) log.now.items) }
{
    for entry in log {
        if entry.by != t && table.conflicts(column(k), column(entry.op)) {
            return Some(entry.by);
        }
    }
    None
}

/// The place of an operation of a table, which is its number.
pub fn column(k: Operation) -> u8
    requires { k < 64 }
    ensures { result ≡ k }
{
    k.place()
}
