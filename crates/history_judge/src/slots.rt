//! The rows of transactions in slots, so that one that ended keeps four bytes.

ghost use Rattle.std.specs.Prelude.{◌≡◌, true, [], ◌∷◌, ◌++◌, length, take, None, Some, OnOk, OnErr, slice_set};
ghost use Rattle.open_transactions.specs.Transactions.{row, has_row};
ghost use Rattle.history_judge.specs.Slots.{its_of};

use crate::executed::Executed;
use crate::operations::Operations;
use std::alloc::{AllocError, Global};
use std::marker::Model;

/// In place of a slot's index: the transaction ended.
const ENDED: u32 = u32::MAX;

/// An open transaction.
#[derive(Drop)]
struct Slot {
    number: u32,
    operations: Operations,
}

/// The transactions of a history, numbered 0, 1, 2, .. as they begin.
///
/// Contracts see a row for each that began: its operations that survive, in order, where it is open, and
/// nothing where it ended.
#[derive(Drop)]
pub(crate) struct Slots {
    // for each that began, the index of its slot, or `ENDED`
    slot_of: Vec<u32>,
    // the open ones, without gaps
    slots: Vec<Slot>,
    // lists that no transaction has any more, whose room is used again
    spare: Vec<Operations>,
}

impl Model for Slots {
    ghost use Rattle.std.specs.Prelude.{List, map, Option};
    ghost use Rattle.open_transactions.specs.InSlots.{IsPlaced};
    ghost use Rattle.history_judge.specs.declared.executed.Executed.{Executed};
    ghost use Rattle.history_judge.specs.Slots.{slot_number, slot_rows};

    ghost Value = { List (Option (List Executed)) };

    ghost view = { λ a. slot_rows a.slots.items a.slot_of.items };

    ghost invariant = { λ a. IsPlaced 4294967295 a.slot_of.items (map slot_number a.slots.items) };
}

impl Slots {
    /// None yet. It takes no memory.
    pub(crate) fn new(alloc: Global) -> Slots
        ensures { result ≡ [] }
    {
        Slots {
            slot_of: Vec::new(alloc),
            slots: Vec::new(alloc),
            spare: Vec::new(alloc),
        }
    }

    /// How many began.
    pub(crate) fn begun(&self) -> usize
        ensures { result ≡ length self.now }
    {
        self.slot_of.len()
    }

    /// Whether t began and hasn't ended.
    #[inline(always)]
    pub(crate) fn is_open(&self, t: u32) -> bool
        ensures { result ≡ has_row self.now t }
    {
        let t = t as usize;
        t < self.slot_of.len() && self.slot_of[t] != ENDED
    }

    /// How many operations of t survive.
    pub(crate) fn count(&self, t: u32) -> usize
        requires { has_row self.now t ≡ true }
        ensures { result ≡ length (its_of (row self.now t)) }
    {
        let slot = self.slot_of[t as usize] as usize;
        self.slots[slot].operations.len()
    }

    /// Begins t, which is the next.
    #[inline(always)]
    pub(crate) fn begin(&mut self, t: u32) -> Result<(), AllocError>
        requires { t ≡ length self.old }
        ensures ok { OnOk result (self.new ≡ self.old ++ Some [] ∷ []) }
        ensures err { OnErr result (self.new ≡ self.old) }
    {
        let slot = self.slots.len();
        if slot >= ENDED as usize {
            return Err(AllocError);
        }
        self.slot_of.reserve(1)?;
        self.slots.reserve(1)?;
        let operations = emptied(&mut self.spare, *self.slot_of.allocator());
        self.slots.push_reserved(Slot {
            number: t,
            operations,
        });
        self.slot_of.push_reserved(slot as u32);
        Ok(())
    }

    /// One more operation of t.
    #[inline(always)]
    pub(crate) fn add(&mut self, t: u32, operation: Executed) -> Result<(), AllocError>
        requires { has_row self.old t ≡ true }
        ensures ok { OnOk result (self.new ≡ slice_set self.old t (Some (its_of (row self.old t) ++ operation ∷ []))) }
        ensures err { OnErr result (self.new ≡ self.old) }
    {
        let slot = self.slot_of[t as usize] as usize;
        self.slots[slot].operations.push(operation)
    }

    /// Keeps the first n operations of t, or all where it has fewer. It takes no memory.
    pub(crate) fn keep(&mut self, t: u32, n: usize)
        requires { has_row self.old t ≡ true }
        ensures { self.new ≡ slice_set self.old t (Some (take n (its_of (row self.old t)))) }
    {
        let slot = self.slot_of[t as usize] as usize;
        self.slots[slot].operations.truncate(n);
    }

    /// Ends t, and hands out its operations. It takes no memory.
    #[inline(always)]
    pub(crate) fn end(&mut self, t: u32) -> Operations
        requires { has_row self.old t ≡ true }
        ensures operations { result ≡ its_of (row self.old t) }
        ensures rows { self.new ≡ slice_set self.old t None }
    {
        let slot = self.slot_of[t as usize];
        // the transaction in the last slot goes to the slot of t
        let last = self.slots.len() - 1;
        let moved = self.slots[last].number;
        self.slot_of[moved as usize] = slot;
        self.slot_of[t as usize] = ENDED;
        let Slot {
            number: _,
            operations,
        } = self.slots.swap_remove(slot as usize);
        operations
    }

    /// Ends t, whose operations nobody asks for.
    #[inline(always)]
    pub(crate) fn close(&mut self, t: u32)
        requires { has_row self.old t ≡ true }
        ensures { self.new ≡ slice_set self.old t None }
    {
        let operations = self.end(t);
        self.take_back(operations);
    }

    /// Takes a list back that was handed out.
    #[inline(always)]
    pub(crate) fn take_back(&mut self, operations: Operations)
        ensures { self.new ≡ self.old }
    {
        // where memory is refused it is let go
        let _ = self.spare.push(operations);
    }
}

/// A list of no operations, which has the room of one of these where there is one.
#[inline(always)]
fn emptied(spare: &mut Vec<Operations>, alloc: Global) -> Operations
    ensures { result ≡ [] }
{
    match spare.pop() {
        Some(mut operations) => {
            operations.truncate(0);
            operations
        }
        None => Operations::new(alloc),
    }
}
