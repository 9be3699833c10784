//! Taking operations out of a list of held ones.

ghost use Rattle.std.specs.Prelude.{◌≡◌, ◌≤◌, ◌<◌, ◌-◌, All, length, take};
ghost use Rattle.smallvec.specs.SmallVec.{small_vec_len};
ghost use Rattle.object_trait.specs.Strike.{keep_first};
ghost use Rattle.op_locks.specs.Locks.{is_held_by, HasBits, stays_held};

use crate::held::Held;
use smallvec::SmallVec;

/// What stays: all places but the last `gone`, and a word with the bit of each operation there.
#[derive(Clone, Copy)]
pub struct Kept {
    pub gone: usize,
    pub word: u64,
}

/// Moves what stays to the front, in its order: what others than t hold, and the first of what t
/// holds, as many as `first` says.
pub fn compact(held: &mut [Held], t: u32, first: usize) -> Kept
    requires { All (λ e. e.op < 64) held.old }
    ensures within { result.gone ≤ length held.old }
    ensures list { take (length held.old - result.gone) held.new ≡ keep_first (is_held_by t) first held.old }
    ensures word { HasBits result.word (take (length held.old - result.gone) held.new) }
{
    if first == 0 {
        compact_others(held, t)
    } else {
        compact_both(held, t, first)
    }
}

/// The same by a count of t's that may still stay.
fn compact_both(held: &mut [Held], t: u32, first: usize) -> Kept
    requires { All (λ e. e.op < 64) held.old }
    ensures within { result.gone ≤ length held.old }
    ensures list { take (length held.old - result.gone) held.new ≡ keep_first (is_held_by t) first held.old }
    ensures word { HasBits result.word (take (length held.old - result.gone) held.new) }
{
    let mut left = first;
    let mut count = 0;
    let mut word = 0;
    for i in 0..held.len() {
        let entry = held[i];
        let stays = stays(entry, t, left);
        held[count] = entry;
        count += usize::from(stays);
        word |= u64::from(stays) << entry.op;
        left = left.saturating_sub(usize::from(entry.by == t));
    }
    Kept {
        gone: held.len() - count,
        word,
    }
}

/// The same where none of t's stays, and so without a count of those that may.
fn compact_others(held: &mut [Held], t: u32) -> Kept
    requires { All (λ e. e.op < 64) held.old }
    ensures within { result.gone ≤ length held.old }
    ensures list { take (length held.old - result.gone) held.new ≡ keep_first (is_held_by t) 0 held.old }
    ensures word { HasBits result.word (take (length held.old - result.gone) held.new) }
{
    let mut count = 0;
    let mut word = 0;
    for i in 0..held.len() {
        let entry = held[i];
        let stays = stays(entry, t, 0);
        held[count] = entry;
        count += usize::from(stays);
        word |= u64::from(stays) << entry.op;
    }
    Kept {
        gone: held.len() - count,
        word,
    }
}

/// Whether an entry stays, where this many of t's may.
fn stays(entry: Held, t: u32, left: usize) -> bool
    ensures { result ≡ stays_held t left entry }
{
    entry.by != t || left > 0
}

/// Takes the last n out. One alone, which is the most frequent number, is cheaper by `pop`.
pub fn take_last(held: &mut SmallVec<Held, 8>, n: usize)
    requires { n ≤ small_vec_len held.old }
    ensures items { held.new.items ≡ take (small_vec_len held.old - n) held.old.items }
    ensures capacity { held.new.capacity ≡ held.old.capacity }
{
    if n == 1 {
        held.pop();
    } else {
        held.truncate(held.len() - n);
    }
}
