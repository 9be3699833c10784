ghost use Rattle.durable_store.specs.Recovered.{IsStrayError};

use journal::JournalError;
use line_text::{FaultKind, TextFault};
use object_types::ObjectFault;
use std::alloc::{AllocError, AllocFailed};
use store::{CarryRefusal, NewRefusal};
use thiserror::Error;

/// Why a file isn't opened as that of a store.
#[derive(Clone, Copy, Debug, PartialEq, Eq, Error)]
pub enum OpenError {
    /// The file failed, isn't one of a store, or memory was refused for it.
    #[error("{0}")]
    Journal(JournalError),
    /// The text of a type has a fault.
    #[error("the text of type {0} has a fault")]
    Text(usize),
    /// An object has no type: its place isn't that of a text, it names a number and is of another kind than
    /// escrow, the checker says no, or its state isn't one of the type's set.
    #[error("object {0} has no type")]
    Untyped(usize),
    /// An object that is added has a name that one of the file has, or one that is added before it.
    #[error("the name of object {0} is taken")]
    NameTaken(usize),
    /// No store is made of the objects.
    #[error("{0}")]
    NoStore(NewRefusal),
    /// The store doesn't begin anew with more objects.
    #[error("{0}")]
    NotExtended(CarryRefusal),
    /// No command makes an event of the file after those before it.
    #[error("no command makes event {0}")]
    NotMade(usize),
    /// No transaction is prepared as this row of the file says.
    #[error("no transaction is prepared as row {0} says")]
    NotPrepared(usize),
    /// Memory was refused.
    #[error("memory was refused")]
    NoMemory,
}

impl OpenError {
    /// Of the text of type k.
    pub(crate) fn of_text(k: usize, fault: TextFault) -> OpenError
        ensures { IsStrayError result → ⊥ }
    {
        match fault.kind {
            FaultKind::NoMemory => OpenError::NoMemory,
            _ => OpenError::Text(k),
        }
    }
}

impl From<AllocError> for OpenError {
    ghost use Rattle.std.specs.Prelude.{◌≡◌};
    ghost use Rattle.durable_store.specs.declared.open_error.OpenError.TheVariants.{NoMemory};

    ghost from_gives = { λ _ error. error ≡ NoMemory };

    fn from(_: AllocError) -> OpenError {
        OpenError::NoMemory
    }
}

impl<T: Drop> From<AllocFailed<T>> for OpenError {
    ghost use Rattle.std.specs.Prelude.{◌≡◌};
    ghost use Rattle.durable_store.specs.declared.open_error.OpenError.TheVariants.{NoMemory};

    ghost from_gives = { λ _ error. error ≡ NoMemory };

    fn from(_: AllocFailed<T>) -> OpenError {
        OpenError::NoMemory
    }
}

impl From<ObjectFault> for OpenError {
    ghost use Rattle.durable_store.specs.Recovered.{IsStrayError};

    ghost from_gives = { λ _ error. IsStrayError error → ⊥ };

    fn from(fault: ObjectFault) -> OpenError {
        match fault {
            ObjectFault::NoType { x, place: _ } => OpenError::Untyped(x),
            ObjectFault::NeedsEscrow { x } => OpenError::Untyped(x),
            ObjectFault::Refused { x, refusal: _ } => OpenError::Untyped(x),
            ObjectFault::NoMemory => OpenError::NoMemory,
        }
    }
}
