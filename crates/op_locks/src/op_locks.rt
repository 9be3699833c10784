ghost use Rattle.std.specs.Prelude.{◌≡◌, ◌==◌, ◌≤◌, ◌<◌, ◌+◌, ◌++◌, ◌∷◌, [], All, length, IsOk, OnOk, OnErr};
ghost use Rattle.std.specs.Int.{bit_at};
ghost use Rattle.op_locks.specs.Locks.{blocking_holder, is_held_by, held_without};
ghost use Rattle.object_trait.specs.Strike.{keep_first};

use crate::compacting::{compact, take_last};
use crate::held::Held;
use object_trait::keeps_none;
use smallvec::SmallVec;
use std::alloc::{AllocError, Global};
use std::marker::Model;
use type_table::ConflictTable;

/// The operations that transactions hold, in the order in which they came to hold them.
///
/// Contracts see what is held, and for how many more there is room.
#[derive(Drop)]
pub struct OpLocks {
    held: SmallVec<Held, 8>,
    // Has the bit of each operation that is held, so that a look at the list can be spared.
    word: u64,
}

impl Model for OpLocks {
    ghost use Rattle.std.specs.Prelude.{◌-◌, length};
    ghost use Rattle.op_locks.specs.Locks.{Locks, HasBits};

    ghost Value = { Locks };

    ghost view = { λ a. record { held = a.held.items; room = a.held.capacity - length a.held.items } };

    ghost invariant = { λ a. HasBits a.word a.held.items };
}

impl OpLocks {
    /// A list of nothing. It takes no memory.
    pub fn new(alloc: Global) -> OpLocks
        ensures { result.held ≡ [] }
    {
        OpLocks {
            held: SmallVec::new(alloc),
            word: 0,
        }
    }

    /// Who keeps the transaction t from the operation k: the holder of the earliest operation that k
    /// conflicts with, and that another transaction holds.
    pub fn blocker(&self, table: &ConflictTable, t: u32, k: u8) -> Option<u32>
        requires requested { k < length table.now }
        requires held { All (λ e. e.op < length table.now) self.now.held }
        ensures { result ≡ blocking_holder table.now t k self.now.held }
    {
        let row = table.row(k);
        if row & self.word == 0 {
            return None;
        }
        for held in self.held.as_slice() {
            if held.by != t && has_bit(row, held.op) {
                return Some(held.by);
            }
        }
        None
    }

    /// Makes room for one more, at the least.
    #[inline(always)]
    pub fn reserve(&mut self) -> Result<(), AllocError>
        ensures list { self.new.held ≡ self.old.held }
        ensures room { OnOk result (1 ≤ self.new.room) }
        ensures succeeds { 1 ≤ self.old.room → IsOk result }
        ensures err { OnErr result (self.new ≡ self.old) }
    {
        if self.held.len() < self.held.capacity() {
            return Ok(());
        }
        self.held.reserve(1)
    }

    /// Adds that the transaction t holds the operation k, for which there is room. An operation is
    /// below 64, as those of every table are: it has a bit of the word.
    pub fn hold(&mut self, t: u32, k: u8)
        requires room { 1 ≤ self.old.room }
        requires operation { k < 64 }
        ensures list { self.new.held ≡ self.old.held ++ (record { by = t; op = k }) ∷ [] }
        ensures room { self.new.room + 1 ≡ self.old.room }
    {
        self.held.push_reserved(Held { by: t, op: k });
        self.word |= 1 << k;
    }

    /// Takes out all that the transaction t holds. The rest keeps its order.
    pub fn release(&mut self, t: u32)
        ensures list { self.new.held ≡ held_without t self.old.held }
        ensures room { self.old.room ≤ self.new.room }
    {
        keeps_none::<Held>();
        self.keep(t, 0);
    }

    /// Leaves the first n of what the transaction t holds. The rest keeps its order.
    pub fn release_behind(&mut self, t: u32, n: u32)
        ensures list { self.new.held ≡ keep_first (is_held_by t) n self.old.held }
        ensures room { self.old.room ≤ self.new.room }
    {
        self.keep(t, n as usize);
    }

    // Takes out all that t holds but the first of it, as many as `first` says.
    fn keep(&mut self, t: u32, first: usize)
        ensures list { self.new.held ≡ keep_first (is_held_by t) first self.old.held }
        ensures room { self.old.room ≤ self.new.room }
    {
        let kept = compact(self.held.as_mut_slice(), t, first);
        take_last(&mut self.held, kept.gone);
        self.word = kept.word;
    }
}

/// Whether a word has the bit of an operation.
fn has_bit(word: u64, k: u8) -> bool
    requires { k < 64 }
    ensures { result ≡ (bit_at word k == 1) }
{
    word >> k & 1 == 1
}
