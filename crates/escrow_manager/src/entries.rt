//! The entries of a transaction in the log of an object in escrow. All entries there are open.

ghost use Rattle.std.specs.Prelude.{◌≡◌, false, ◌^◌, ◌<◌, ◌≤◌, ◌==◌, not, ◌&&◌, ◌||◌, nat_lt, true, Some, length, filter, cond, All};
ghost use Rattle.std.specs.List.{find, list_any};
ghost use Rattle.std.specs.Option.{option_map, option_or};
ghost use Rattle.type_table.specs.Run.{IsLegal};
ghost use Rattle.escrow_laws.specs.Marks.{mark_after, mark_of, mark_keeps, is_legal_from};
ghost use Rattle.escrow_manager.specs.Numeric.{bounds_in, greatest, IsInEscrow};
ghost use Rattle.object_trait.specs.Strike.{keep_first};
ghost use Rattle.object_trait.specs.Meaning.{is_open_of, open_of, AreOpen, own_of};
ghost use Rattle.escrow_manager.specs.Marks.{MarksAscend, mark_in, mark_keeps_alone, moves_far, IsSmall};
ghost use Rattle.escrow_manager.specs.Totals.{HasShortSums};

use crate::marks::mark_in;
use crate::numeric::{bounded, greatest};
use crate::totals::Totals;
use escrow_laws::{Bounded, Mark, OpenMark, marks_fit};
use object_trait::LogEntry;
use table_checker::CheckedType;
use type_table::runs_along;

/// Whether an open entry is t's.
fn is_of(entry: LogEntry, t: u32) -> bool
    requires { entry.done ≡ false }
    ensures { result ≡ is_open_of t entry }
{
    entry.by == t
}

/// How many entries t has.
pub fn count_of(log: &Vec<LogEntry>, t: u32) -> usize
    requires { AreOpen log.now.items }
    ensures { result ≡ length (open_of t log.now.items) }
{
    log.iter().filter(|entry| entry.by == t).count()
}

/// Takes t's entries out.
pub fn take_out(log: &mut Vec<LogEntry>, t: u32)
    requires { AreOpen log.old.items }
    ensures { log.new.items ≡ filter (λ e. not (is_open_of t e)) log.old.items }
{
    log.retain(|entry| entry.by != t);
}

/// Whether an entry stays, where `left` of mine are still to stay.
fn stays(mine: bool, left: usize) -> bool
    ensures { result ≡ (not mine || nat_lt 0 left) }
{
    !mine || left > 0
}

/// Leaves the first n entries of t.
pub fn keep_first(log: &mut Vec<LogEntry>, t: u32, n: usize)
    requires { AreOpen log.old.items }
    ensures { log.new.items ≡ keep_first (is_open_of t) n log.old.items }
{
    let mut left = n;
    let mut kept = 0;
    for i in 0..log.len() {
        let mine = is_of(log[i], t);
        log[kept] = log[i];
        kept += usize::from(stays(mine, left));
        left = left.saturating_sub(usize::from(mine));
    }
    log.truncate(kept);
}

/// The mark with one more operation, where it is mine.
fn marked_if(mark: Mark, mine: bool, op: Bounded) -> Mark
    requires { mine ≡ true → IsSmall 4294967295 mark op }
    ensures { result ≡ cond mine (mark_after mark op) mark }
{
    if mine { mark.marked(op) } else { mark }
}

/// The mark of what t did, which is legal from base.
pub fn mark_of(log: &Vec<LogEntry>, t: u32, checked: &CheckedType, base: u32) -> Mark
    requires numeric { IsInEscrow checked.now }
    requires opens { AreOpen log.now.items }
    requires operations { All (λ e. e.op < length checked.now.file.table.ops) log.now.items }
    requires base { base ≤ greatest checked.now }
    requires legal { IsLegal checked.now.file.table (Some base) (own_of log.now.items t) }
    ensures { result ≡ mark_of (greatest checked.now) (bounds_in checked.now) (own_of log.now.items t) }
{
    marks_fit();
    runs_along();
    let mut mark = Mark::unmarked(greatest(checked));
    for entry in log {
        let mine = is_of(*entry, t);
        mark = marked_if(mark, mine, bounded(checked, entry.op));
    }
    mark
}

/// Whether it is another's entry, and this other keeps t from what it did last.
#[inline(always)]
fn is_keeper(
    entry: LogEntry,
    marks: &Vec<OpenMark>,
    t: OpenMark,
    base: u32,
    totals: Totals,
    top: u32,
) -> bool
    requires ordered { MarksAscend marks.now.items }
    requires risen { totals.risen < 2 ^ 63 }
    ensures { result ≡ (not (entry.by == t.by) && mark_keeps base totals.fallen totals.risen t.mark (mark_in top entry.by marks.now.items)) }
{
    entry.by != t.by
        && {
            let other = mark_in(marks, entry.by, top);
            t.mark.is_kept_by(other, base, totals.fallen, totals.risen)
        }
}

/// Whether who has the mark u alone keeps who has the mark t from what it did last.
fn keeps_alone(base: u32, t: Mark, u: Mark) -> bool
    requires { u.rise < 2 ^ 63 }
    ensures { result ≡ mark_keeps_alone base t u }
{
    let lowest = u64::from(base).saturating_sub(u.fall);
    let highest = u64::from(base) + u.rise;
    !(t.is_legal_from(lowest) && t.is_legal_from(highest))
}

/// Whether who has the mark u alone moves the number further than what who has the mark t did, which is
/// legal, bears.
fn moves_far(base: u32, t: Mark, u: Mark) -> bool
    ensures { result ≡ moves_far base t u }
{
    let base = u64::from(base);
    u.fall > base.saturating_sub(t.floor) || u.rise >= t.ceiling.saturating_sub(base)
}

/// Whether another than t does so.
fn another_moves_far(marks: &Vec<OpenMark>, t: OpenMark, base: u32) -> bool
    ensures { result ≡ list_any (λ o. moves_far base t.mark o.mark && not (o.by == t.by)) marks.now.items }
{
    for open in marks {
        if moves_far(base, t.mark, open.mark) && open.by != t.by {
            return true;
        }
    }
    false
}

/// Whether it is another's entry, and this other keeps t from what it did last, and does so alone.
fn is_lone_keeper(
    entry: LogEntry,
    marks: &Vec<OpenMark>,
    t: OpenMark,
    base: u32,
    totals: Totals,
    top: u32,
) -> bool
    requires ordered { MarksAscend marks.now.items }
    requires short { All (λ o. HasShortSums o.mark) marks.now.items }
    requires risen { totals.risen < 2 ^ 63 }
    ensures { result ≡ (mark_keeps_alone base t.mark (mark_in top entry.by marks.now.items) && (not (entry.by == t.by) && mark_keeps base totals.fallen totals.risen t.mark (mark_in top entry.by marks.now.items))) }
{
    keeps_alone(base, t.mark, mark_in(marks, entry.by, top))
        && is_keeper(entry, marks, t, base, totals, top)
}

/// Whose entry is the first that alone keeps t from what it did last, where that has this mark and all
/// marks have these totals.
fn first_lone_keeper(
    log: &Vec<LogEntry>,
    marks: &Vec<OpenMark>,
    t: OpenMark,
    base: u32,
    totals: Totals,
    top: u32,
) -> Option<u32>
    requires ordered { MarksAscend marks.now.items }
    requires short { All (λ o. HasShortSums o.mark) marks.now.items }
    requires risen { totals.risen < 2 ^ 63 }
    ensures { result ≡ option_map (λ e. e.by) (find (λ e. mark_keeps_alone base t.mark (mark_in top e.by marks.now.items) && (not (e.by == t.by) && mark_keeps base totals.fallen totals.risen t.mark (mark_in top e.by marks.now.items))) log.now.items) }
{
    for entry in log {
        if is_lone_keeper(*entry, marks, t, base, totals, top) {
            return Some(entry.by);
        }
    }
    None
}

/// The same, where what t did is legal. The log is gone through only where another moves the number so far.
fn lone_keeper(
    log: &Vec<LogEntry>,
    marks: &Vec<OpenMark>,
    t: OpenMark,
    base: u32,
    totals: Totals,
    top: u32,
) -> Option<u32>
    requires ordered { MarksAscend marks.now.items }
    requires short { All (λ o. HasShortSums o.mark) marks.now.items }
    requires risen { totals.risen < 2 ^ 63 }
    requires legal { is_legal_from t.mark base ≡ true }
    ensures { result ≡ option_map (λ e. e.by) (find (λ e. mark_keeps_alone base t.mark (mark_in top e.by marks.now.items) && (not (e.by == t.by) && mark_keeps base totals.fallen totals.risen t.mark (mark_in top e.by marks.now.items))) log.now.items) }
{
    if another_moves_far(marks, t, base) {
        first_lone_keeper(log, marks, t, base, totals, top)
    } else {
        None
    }
}

/// Whose entry is the first that keeps t from what it did last, whether alone or not.
fn first_keeper(
    log: &Vec<LogEntry>,
    marks: &Vec<OpenMark>,
    t: OpenMark,
    base: u32,
    totals: Totals,
    top: u32,
) -> Option<u32>
    requires ordered { MarksAscend marks.now.items }
    requires risen { totals.risen < 2 ^ 63 }
    ensures { result ≡ option_map (λ e. e.by) (find (λ e. not (e.by == t.by) && mark_keeps base totals.fallen totals.risen t.mark (mark_in top e.by marks.now.items)) log.now.items) }
{
    for entry in log {
        if is_keeper(*entry, marks, t, base, totals, top) {
            return Some(entry.by);
        }
    }
    None
}

/// Who is named, of those that keep t from what it did last: whose entry is the first that does so
/// alone; where none does, whose is the first. What t did is legal.
pub fn named_keeper(
    log: &Vec<LogEntry>,
    marks: &Vec<OpenMark>,
    t: OpenMark,
    base: u32,
    totals: Totals,
    top: u32,
) -> Option<u32>
    requires ordered { MarksAscend marks.now.items }
    requires short { All (λ o. HasShortSums o.mark) marks.now.items }
    requires risen { totals.risen < 2 ^ 63 }
    requires legal { is_legal_from t.mark base ≡ true }
    ensures { result ≡ option_or (option_map (λ e. e.by) (find (λ e. mark_keeps_alone base t.mark (mark_in top e.by marks.now.items) && (not (e.by == t.by) && mark_keeps base totals.fallen totals.risen t.mark (mark_in top e.by marks.now.items))) log.now.items)) (option_map (λ e. e.by) (find (λ e. not (e.by == t.by) && mark_keeps base totals.fallen totals.risen t.mark (mark_in top e.by marks.now.items)) log.now.items)) }
{
    match lone_keeper(log, marks, t, base, totals, top) {
        Some(u) => Some(u),
        None => first_keeper(log, marks, t, base, totals, top),
    }
}
