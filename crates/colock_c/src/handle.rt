//! The box behind a handle.

ghost use Rattle.std.specs.Prelude.{◌≡◌, Option, Some, None};
ghost use Rattle.std.specs.Coded.{coded_option};
ghost use Rattle.library_calls.specs.declared.held.Held.{Held};
ghost use Rattle.colock_c.specs.Owned.{handle_owns, held_code};

use crate::loose_box::Loose;
use library_calls::Held;
use std::alloc::Global;
use std::marker::Model;

/// A box with what is held, or nothing.
#[repr(C)]
#[derive(Drop)]
pub struct Handle {
    at: *mut u8,
    alloc: Global,
    ghost held: { Option Held } by { coded_option held_code },
}

impl Model for Handle {
    ghost also_owns = { λ h. handle_owns h.alloc h.at h.held };
}

impl Handle {
    /// Nothing.
    pub(crate) fn empty(alloc: Global) -> Handle
        ensures { result.held ≡ None }
    {
        Handle {
            at: std::ptr::null_mut(),
            alloc,
        }
    }

    /// The box of which this is the address.
    pub(crate) fn of(loose: Loose<Held, Global>) -> Handle
        ensures { result.held ≡ Some loose.value }
    {
        let Loose { at, alloc } = loose;
        Handle {
            at: at as *mut u8,
            alloc,
        }
    }

    /// The address of the box.
    pub(crate) fn into_loose(self) -> Loose<Held, Global>
        requires { (x : Held) × (self.held ≡ Some x) }
        ensures { self.held ≡ Some result.value }
    {
        let Handle { at, alloc } = self;
        Loose {
            at: at as *mut Held,
            alloc,
        }
    }
}

// What is held may go to another thread.
unsafe impl Send for Handle {}
