ghost use Rattle.std.specs.Prelude.{◌≡◌};
ghost use Rattle.object_types.specs.declared.object_fault.ObjectFault.TheVariants.{NoMemory};

use std::alloc::{AllocError, AllocFailed};
use table_checker::CheckRefusal;

/// Why objects don't all have a type: the first object that has none, counted from 0.
#[derive(Clone, Copy, Debug, PartialEq, Eq)]
pub enum ObjectFault {
    /// No TYPE word is at the place that object x names.
    NoType { x: usize, place: u16 },
    /// Object x names a number, and is of another kind than escrow.
    NeedsEscrow { x: usize },
    /// The type of object x isn't accepted for its kind.
    Refused { x: usize, refusal: CheckRefusal },
    /// A growth was refused.
    NoMemory,
}

impl From<AllocError> for ObjectFault {
    ghost from_gives = { λ _ fault. fault ≡ NoMemory };

    fn from(_error: AllocError) -> ObjectFault {
        ObjectFault::NoMemory
    }
}

impl<T: Drop> From<AllocFailed<T>> for ObjectFault {
    ghost from_gives = { λ _ fault. fault ≡ NoMemory };

    fn from(_error: AllocFailed<T>) -> ObjectFault {
        ObjectFault::NoMemory
    }
}
