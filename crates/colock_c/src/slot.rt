//! Where C keeps a handle, and whether it holds anything.

ghost use Rattle.std.specs.Prelude.{◌≡◌, ◌↔◌, IsTrue, IsSome, Some, None, MatchOption};
ghost use Rattle.library_calls.specs.Holding.{store_at, type_at};

use crate::handle::Handle;
use crate::loose_box::Loose;
use library_calls::Held;
use std::alloc::Global;
use std::mem;

/// A handle as its owner in C keeps it, of zeros before the first call: it holds nothing then.
#[repr(C)]
#[derive(Drop)]
pub struct Slot {
    live: bool,
    pub handle: Handle,
    ghost flagged: { IsTrue live ↔ IsSome handle.held },
}

impl Slot {
    /// Whether it holds anything.
    pub fn is_open(&mut self) -> bool
        ensures said { IsTrue result ↔ IsSome self.old.handle.held }
        ensures unchanged { self.new ≡ self.old }
    {
        self.live
    }

    /// Takes out what it holds.
    pub fn take(&mut self, alloc: Global) -> Option<Box<Held>>
        ensures { MatchOption result
            ((self.old.handle.held ≡ None) × (self.new ≡ self.old))
            (λ held. (self.old.handle.held ≡ Some held.value) × (self.new.handle.held ≡ None)) }
    {
        if !self.live {
            return None;
        }
        let handle = mem::replace(&mut self.handle, Handle::empty(alloc));
        self.live = false;
        Some(handle.into_loose().into_box())
    }

    /// Takes out the store that it holds. What else it holds stays.
    pub fn take_store(&mut self, alloc: Global) -> Option<Box<Held>>
        ensures { MatchOption result
            ((store_at self.old.handle.held ≡ None) × (self.new.handle.held ≡ self.old.handle.held))
            (λ held. IsSome (store_at (Some held.value)) × (self.old.handle.held ≡ Some held.value) × (self.new.handle.held ≡ None)) }
    {
        let held = self.take(alloc)?;
        if held.is_store() {
            return Some(held);
        }
        self.put(held);
        None
    }

    /// Takes out the type that it holds. What else it holds stays.
    pub fn take_type(&mut self, alloc: Global) -> Option<Box<Held>>
        ensures { MatchOption result
            ((type_at self.old.handle.held ≡ None) × (self.new.handle.held ≡ self.old.handle.held))
            (λ held. IsSome (type_at (Some held.value)) × (self.old.handle.held ≡ Some held.value) × (self.new.handle.held ≡ None)) }
    {
        let held = self.take(alloc)?;
        if held.is_type() {
            return Some(held);
        }
        self.put(held);
        None
    }

    /// Puts something in, where there is nothing.
    pub fn put(&mut self, held: Box<Held>)
        requires { self.old.handle.held ≡ None }
        ensures { self.new.handle.held ≡ Some held.value }
    {
        self.handle = Handle::of(Loose::of(held));
        self.live = true;
    }
}

fn crosses<T: Send>(value: T) -> T
    ensures { result ≡ value }
{
    value
}

/// A handle may go to another thread, and holds there what it held.
pub fn slot_crosses(slot: Slot) -> Slot
    ensures { result.handle.held ≡ slot.handle.held }
{
    crosses(slot)
}
