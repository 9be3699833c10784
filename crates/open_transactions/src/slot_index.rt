ghost use Rattle.std.specs.Prelude.{◌≡◌, ◌≢◌, ◌+◌, ◌<◌, ◌≤◌, [], ◌∷◌, ◌++◌, ℕ, length, set, drop, vec_len, vec_capacity, OnOk, slice_index_or};
ghost use Rattle.open_transactions.specs.Index.{ended, HaveEndedInFront};

use std::alloc::{AllocError, Global};
use std::marker::Model;

/// In position of a slot: the transaction ended.
pub const ENDED: u32 = u32::MAX;

// for how many more there is room at least where memory was taken, so that a small store takes it once
const LEAST_ROOM: usize = 32;

/// The slot of each transaction that began, by its number.
///
/// It takes four bytes for each that began since the oldest open one, and for those before it, which ended, that aren't
/// cut off yet. Where there is no room, these are cut off if they are an eighth of all, and else memory doubles. So it
/// has at most ten bytes for each of the most that ever were since the oldest open one, and 128 more.
#[derive(Drop)]
pub struct SlotIndex {
    // how many were cut off in front, which ended
    cut: u32,
    // the slot of each that isn't cut off
    slots: Vec<u32>,
}

impl Model for SlotIndex {
    ghost use Rattle.std.specs.Prelude.{◌≤◌, ◌-◌, ◌++◌, length, replicate, vec_len, vec_capacity};
    ghost use Rattle.open_transactions.specs.Index.{Index, ended};

    ghost Value = { Index };

    ghost view = { λ a. record {
      slots = replicate a.cut ended ++ a.slots.items;
      room = vec_capacity a.slots - vec_len a.slots;
    } };

    ghost invariant = { λ a. length (replicate a.cut ended ++ a.slots.items) ≤ 4294967295 };
}

impl SlotIndex {
    /// None began. It takes no memory.
    pub fn new(alloc: Global) -> SlotIndex
        ensures { result.slots ≡ [] }
    {
        SlotIndex {
            cut: 0,
            slots: Vec::new(alloc),
        }
    }

    /// How many began.
    #[inline(always)]
    pub fn begun(&self) -> u32
        ensures { result ≡ length self.now.slots }
    {
        self.cut + self.slots.len() as u32
    }

    /// A number before which all have ended: that of the oldest open one, or how many began where none is.
    ///
    /// It looks at those that ended before it and aren't cut off yet, so that no end has to count them.
    pub fn oldest(&self) -> u32
        ensures within { result ≤ length self.now.slots }
        ensures ended { (t : ℕ) → t < result → slice_index_or self.now.slots t ended ≡ ended }
        ensures oldest { result < length self.now.slots → slice_index_or self.now.slots result ended ≢ ended }
    {
        self.cut + count_ended(&self.slots)
    }

    /// The slot of t, `ENDED` where it ended or never began.
    #[inline(always)]
    pub fn slot(&self, t: u32) -> u32
        ensures { result ≡ slice_index_or self.now.slots t ended }
    {
        // of one that was cut off this wraps to a position after the last
        let position = t.wrapping_sub(self.cut) as usize;
        match self.slots.get(position) {
            Some(slot) => *slot,
            None => ENDED,
        }
    }

    /// The slot of t, which is open.
    #[inline(always)]
    pub fn open_slot(&self, t: u32) -> u32
        requires { slice_index_or self.now.slots t ended ≢ ended }
        ensures { result ≡ slice_index_or self.now.slots t ended }
    {
        let position = (t - self.cut) as usize;
        self.slots[position]
    }

    /// Makes room for one more.
    #[inline(always)]
    pub fn reserve(&mut self) -> Result<(), AllocError>
        ensures slots { self.new.slots ≡ self.old.slots }
        ensures room { OnOk result (0 < self.new.room) }
    {
        if self.slots.len() < self.slots.capacity() {
            return Ok(());
        }
        self.make_room()
    }

    /// Makes room for one more where there is none: cuts off those that ended in front, if they are an eighth of all,
    /// so that few are moved for each that begins, and else takes memory.
    #[cold]
    #[inline(never)]
    fn make_room(&mut self) -> Result<(), AllocError>
        ensures slots { self.new.slots ≡ self.old.slots }
        ensures room { OnOk result (0 < self.new.room) }
    {
        let ended = count_ended(&self.slots);
        if ended == 0 || (ended as usize) < self.slots.len() / 8 {
            return self.slots.reserve(LEAST_ROOM);
        }
        cut_off(&mut self.slots, ended as usize);
        self.cut += ended;
        Ok(())
    }

    /// One more begins, with this slot, or has ended. It takes no memory.
    #[inline(always)]
    pub fn push_reserved(&mut self, slot: u32)
        requires room { 0 < self.old.room }
        requires fits { length self.old.slots < 4294967295 }
        ensures slots { self.new.slots ≡ self.old.slots ++ slot ∷ [] }
        ensures room { self.new.room + 1 ≡ self.old.room }
    {
        self.slots.push_reserved(slot);
    }

    /// t, which is open, has another slot.
    #[inline(always)]
    pub fn put(&mut self, t: u32, slot: u32)
        requires still_open { slice_index_or self.old.slots t ended ≢ ended }
        requires slot { slot ≢ ended }
        ensures slots { self.new.slots ≡ set self.old.slots t slot }
        ensures room { self.new.room ≡ self.old.room }
    {
        let position = (t - self.cut) as usize;
        self.slots[position] = slot;
    }

    /// t, which is open, ends. It takes no memory.
    #[inline(always)]
    pub fn end(&mut self, t: u32)
        requires { slice_index_or self.old.slots t ended ≢ ended }
        ensures { self.new.slots ≡ set self.old.slots t ended }
    {
        let position = (t - self.cut) as usize;
        self.slots[position] = ENDED;
    }
}

/// How many ended before the oldest open one of these began.
fn count_ended(slots: &[u32]) -> u32
    requires { length slots.now ≤ 4294967295 }
    ensures { HaveEndedInFront result slots.now }
{
    let mut count = 0;
    for &slot in slots {
        if slot != ENDED {
            return count;
        }
        count += 1;
    }
    count
}

/// Cuts off the first ones, as many as that. It takes no memory.
fn cut_off(slots: &mut Vec<u32>, count: usize)
    requires { count ≤ vec_len slots.old }
    ensures rest { slots.new.items ≡ drop count slots.old.items }
    ensures capacity { vec_capacity slots.new ≡ vec_capacity slots.old }
{
    let left = slots.len() - count;
    slots.copy_within(count.., 0);
    slots.truncate(left);
}
