ghost use Rattle.std.specs.Prelude.{◌≡◌, ◌+◌, ◌<◌, ◌≤◌, ℕ, true, false, [], ◌∷◌, ◌++◌, length, None, Some, OnOk, slice_index, slice_set};
ghost use Rattle.smallvec.specs.SmallVec.{HasRoomFor};

use crate::slot_index::{ENDED, SlotIndex};
use object_index::ObjectIndex;
use smallvec::SmallVec;
use std::alloc::{AllocError, Global};
use std::marker::Model;

/// What is kept of a transaction while it is open.
#[derive(Drop)]
struct OpenTransaction {
    number: u32,
    worker: u8,
    places: SmallVec<ObjectIndex, 8>,
}

/// The transactions of a store, numbered 0, 1, 2, .. as they begin. At most 65,536 are open at once.
///
/// Contracts see a row for each that began: its worker and the places of its operations where it is open, and
/// nothing where it ended. They also see for how many begins and places there is room.
#[derive(Drop)]
pub struct OpenTransactions {
    // the slot of each that began
    index: SlotIndex,
    // the open ones, without gaps
    slots: Vec<OpenTransaction>,
}

impl Model for OpenTransactions {
    ghost use Rattle.std.specs.Prelude.{◌-◌, min, vec_len, vec_capacity};
    ghost use Rattle.open_transactions.specs.Transactions.{Transactions};

    ghost Value = { Transactions };

    ghost use Rattle.open_transactions.specs.Slots.{open_rows, rooms_of, AreSlots};

    ghost view = { λ a. record {
      rows = open_rows a.slots.items a.index.slots;
      room_to_begin = min a.index.room (vec_capacity a.slots - vec_len a.slots);
      room_to_push = rooms_of a.slots.items a.index.slots;
    } };

    ghost invariant = { λ a. AreSlots a.slots.items a.index.slots };
}

impl OpenTransactions {
    ghost use Rattle.open_transactions.specs.Transactions.{row, has_row, count_open, worker_of, objects_of_row, begun_by, pushed, kept, changed};

    /// None yet. It takes no memory.
    pub fn new(alloc: Global) -> OpenTransactions
        ensures { result.rows ≡ [] }
    {
        OpenTransactions {
            index: SlotIndex::new(alloc),
            slots: Vec::new(alloc),
        }
    }

    /// How many began, which is the number of the next.
    #[inline(always)]
    pub fn begun(&self) -> u32
        ensures { result ≡ length self.now.rows }
    {
        self.index.begun()
    }

    /// A number before which all have ended: that of the oldest open one, or how many began where none is.
    pub fn oldest(&self) -> u32
        ensures within { result ≤ length self.now.rows }
        ensures ended { (t : ℕ) → t < result → has_row self.now.rows t ≡ false }
        ensures oldest { result < length self.now.rows → has_row self.now.rows result ≡ true }
    {
        self.index.oldest()
    }

    /// How many are open.
    #[inline(always)]
    pub fn open_count(&self) -> u32
        ensures exact { result ≡ count_open self.now.rows }
        ensures few { result ≤ 65536 }
    {
        self.slots.len() as u32
    }

    /// Whether t began and hasn't ended.
    #[inline(always)]
    pub fn is_open(&self, t: u32) -> bool
        ensures { result ≡ has_row self.now.rows t }
    {
        self.index.slot(t) != ENDED
    }

    /// The worker that began t.
    pub fn worker(&self, t: u32) -> u8
        requires { has_row self.now.rows t ≡ true }
        ensures { result ≡ worker_of (row self.now.rows t) }
    {
        let slot = self.index.open_slot(t) as usize;
        self.slots[slot].worker
    }

    /// The places of the operations of t that survive, in order of execution.
    #[inline(always)]
    pub fn places(&self, t: u32) -> &[ObjectIndex]
        requires { has_row self.now.rows t ≡ true }
        ensures { result.now ≡ objects_of_row (row self.now.rows t) }
    {
        let slot = self.index.open_slot(t) as usize;
        self.slots[slot].places.as_slice()
    }

    /// Makes room for one more begin.
    #[inline(always)]
    pub fn reserve_begin(&mut self) -> Result<(), AllocError>
        ensures rows { self.new.rows ≡ self.old.rows }
        ensures room { OnOk result (0 < self.new.room_to_begin) }
    {
        self.index.reserve()?;
        self.slots.reserve(1)
    }

    /// Begins a transaction of this worker, and answers its number. It takes no memory.
    #[inline(always)]
    pub fn begin(&mut self, worker: u8) -> u32
        requires room { 0 < self.old.room_to_begin }
        requires few { count_open self.old.rows < 65536 }
        requires fits { length self.old.rows < 4294967295 }
        ensures number { result ≡ length self.old.rows }
        ensures rows { self.new.rows ≡ self.old.rows ++ Some (begun_by worker) ∷ [] }
        ensures count { count_open self.new.rows ≡ count_open self.old.rows + 1 }
    {
        let number = self.index.begun();
        let slot = self.slots.len() as u32;
        let places = SmallVec::new(*self.slots.allocator());
        self.slots.push_reserved(OpenTransaction {
            number,
            worker,
            places,
        });
        self.index.push_reserved(slot);
        number
    }

    /// Begins a transaction that has ended, and answers its number. It takes no memory.
    #[inline(always)]
    pub fn pass(&mut self) -> u32
        requires room { 0 < self.old.room_to_begin }
        requires fits { length self.old.rows < 4294967295 }
        ensures number { result ≡ length self.old.rows }
        ensures rows { self.new.rows ≡ self.old.rows ++ None ∷ [] }
    {
        let number = self.index.begun();
        self.index.push_reserved(ENDED);
        number
    }

    /// Makes room for one more place of t.
    #[inline(always)]
    pub fn reserve_place(&mut self, t: u32) -> Result<(), AllocError>
        requires { has_row self.old.rows t ≡ true }
        ensures rows { self.new.rows ≡ self.old.rows }
        ensures room { OnOk result (0 < slice_index self.new.room_to_push t) }
    {
        let slot = self.index.open_slot(t) as usize;
        reserve_one(&mut self.slots[slot].places)
    }

    /// One more operation of t, at the place x. It takes no memory.
    #[inline(always)]
    pub fn push_place(&mut self, t: u32, x: ObjectIndex)
        requires still_open { has_row self.old.rows t ≡ true }
        requires room { 0 < slice_index self.old.room_to_push t }
        ensures { self.new.rows ≡ changed self.old.rows t (pushed x) }
    {
        let slot = self.index.open_slot(t) as usize;
        self.slots[slot].places.push_reserved(x);
    }

    /// Keeps the first n operations of t, or all where it has fewer. It takes no memory.
    pub fn keep_places(&mut self, t: u32, n: u32)
        requires { has_row self.old.rows t ≡ true }
        ensures { self.new.rows ≡ changed self.old.rows t (kept n) }
    {
        let slot = self.index.open_slot(t) as usize;
        self.slots[slot].places.truncate(n as usize);
    }

    /// Ends t. It takes no memory.
    #[inline(always)]
    pub fn end(&mut self, t: u32)
        requires { has_row self.old.rows t ≡ true }
        ensures rows { self.new.rows ≡ slice_set self.old.rows t None }
        ensures count { count_open self.new.rows + 1 ≡ count_open self.old.rows }
    {
        let slot = self.index.open_slot(t);
        // the transaction in the last slot goes to the slot of t
        let last = self.slots.len() - 1;
        let moved = self.slots[last].number;
        self.index.put(moved, slot);
        self.index.end(t);
        self.slots.swap_remove(slot as usize);
    }
}

/// Makes room for one more place. Mostly there is room.
#[inline(always)]
fn reserve_one(places: &mut SmallVec<ObjectIndex, 8>) -> Result<(), AllocError>
    ensures items { places.new.items ≡ places.old.items }
    ensures ok { OnOk result (HasRoomFor places.new 1) }
{
    if places.len() < places.capacity() {
        return Ok(());
    }
    places.reserve(1)
}
