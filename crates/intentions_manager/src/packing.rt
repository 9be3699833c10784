//! Taking a transaction's entries out of the log, in one pass. All entries there are open.

ghost use Rattle.std.specs.Prelude.{◌≡◌, ◌<◌, ◌≤◌, ◌||◌, false, not, nat_lt, length, take, All};
ghost use Rattle.object_trait.specs.Strike.{keep_first};
ghost use Rattle.object_trait.specs.Meaning.{is_open_of, AreOpen};
ghost use Rattle.intentions_manager.specs.Kept.{LogHasBits};
ghost use Rattle.intentions_manager.specs.Walk.{carried, FitsTable};

use crate::entries::{column, is_of};
use crate::views::{View, step_all};
use object_trait::LogEntry;
use type_table::TypeTable;

/// What stays: the first `count` entries, and a word with the bit of each operation there.
#[derive(Clone, Copy)]
struct Kept {
    count: usize,
    word: u64,
}

/// Takes out all of t's entries. A word with the bit of each operation that is left.
pub fn cut(log: &mut Vec<LogEntry>, t: u32) -> u64
    requires open { AreOpen log.old.items }
    requires few { All (λ e. e.op < 64) log.old.items }
    ensures cut { log.new.items ≡ keep_first (is_open_of t) 0 log.old.items }
    ensures bits { LogHasBits result log.new.items }
{
    let kept = pack_others(log, t);
    log.truncate(kept.count);
    kept.word
}

/// Takes out t's entries but the first of them, as many as `first` says. A word with the bit of each
/// operation that is left.
pub fn cut_behind(log: &mut Vec<LogEntry>, t: u32, first: u32) -> u64
    requires open { AreOpen log.old.items }
    requires few { All (λ e. e.op < 64) log.old.items }
    ensures cut { log.new.items ≡ keep_first (is_open_of t) first log.old.items }
    ensures bits { LogHasBits result log.new.items }
{
    let kept = pack_first(log, t, first);
    log.truncate(kept.count);
    kept.word
}

/// Takes out all of t's entries, and steps each view by each of them. A word with the bit of each
/// operation that is left.
#[inline(always)]
pub fn carry(log: &mut Vec<LogEntry>, t: u32, views: &mut Vec<View>, table: &TypeTable) -> u64
    requires open { AreOpen log.old.items }
    requires states { All (FitsTable table.now) views.old.items }
    requires operations { All (λ e. e.op < length table.now.ops) log.old.items }
    requires few { length table.now.ops ≤ 64 }
    ensures cut { log.new.items ≡ keep_first (is_open_of t) 0 log.old.items }
    ensures bits { LogHasBits result log.new.items }
    ensures exact { views.new.items ≡ carried table.now t log.old.items views.old.items }
    ensures states { All (FitsTable table.now) views.new.items }
{
    let kept = pack_carrying(log, t, views, table);
    log.truncate(kept.count);
    kept.word
}

/// Moves the entries of others than t to the front, in their order.
#[inline(always)]
fn pack_others(log: &mut [LogEntry], t: u32) -> Kept
    requires open { AreOpen log.old }
    requires few { All (λ e. e.op < 64) log.old }
    ensures within { result.count ≤ length log.old }
    ensures cut { take result.count log.new ≡ keep_first (is_open_of t) 0 log.old }
    ensures bits { LogHasBits result.word (take result.count log.new) }
{
    let mut count = 0;
    let mut word = 0;
    for i in 0..log.len() {
        let entry = log[i];
        let stays = !is_of(&entry, t);
        log[count] = entry;
        count += usize::from(stays);
        word |= u64::from(stays) << column(entry.op);
    }
    Kept { count, word }
}

/// The same, where as many of t's first entries stay as `first` says.
#[inline(always)]
fn pack_first(log: &mut [LogEntry], t: u32, first: u32) -> Kept
    requires open { AreOpen log.old }
    requires few { All (λ e. e.op < 64) log.old }
    ensures within { result.count ≤ length log.old }
    ensures cut { take result.count log.new ≡ keep_first (is_open_of t) first log.old }
    ensures bits { LogHasBits result.word (take result.count log.new) }
{
    let mut left = first;
    let mut count = 0;
    let mut word = 0;
    for i in 0..log.len() {
        let entry = log[i];
        let stays = stays(&entry, t, left);
        log[count] = entry;
        count += usize::from(stays);
        word |= u64::from(stays) << column(entry.op);
        left = left.saturating_sub(u32::from(is_of(&entry, t)));
    }
    Kept { count, word }
}

/// The same as where none of t's stays, and each view is stepped by each of t's entries.
#[inline(always)]
fn pack_carrying(log: &mut [LogEntry], t: u32, views: &mut [View], table: &TypeTable) -> Kept
    requires open { AreOpen log.old }
    requires states { All (FitsTable table.now) views.old }
    requires operations { All (λ e. e.op < length table.now.ops) log.old }
    requires few { length table.now.ops ≤ 64 }
    ensures within { result.count ≤ length log.old }
    ensures cut { take result.count log.new ≡ keep_first (is_open_of t) 0 log.old }
    ensures bits { LogHasBits result.word (take result.count log.new) }
    ensures exact { views.new ≡ carried table.now t log.old views.old }
    ensures states { All (FitsTable table.now) views.new }
{
    let mut count = 0;
    let mut word = 0;
    for i in 0..log.len() {
        let entry = log[i];
        if is_of(&entry, t) {
            step_all(views, table, entry.op);
        } else {
            log[count] = entry;
            count += 1;
            word |= 1 << column(entry.op);
        }
    }
    Kept { count, word }
}

/// Whether an entry stays, where this many of t's may.
fn stays(entry: &LogEntry, t: u32, left: u32) -> bool
    requires { entry.now.done ≡ false }
    ensures { result ≡ (not (is_open_of t entry.now) || nat_lt 0 left) }
{
    !is_of(entry, t) || left > 0
}
