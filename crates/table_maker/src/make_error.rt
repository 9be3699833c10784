ghost use Rattle.std.specs.Prelude.{◌≡◌};
ghost use Rattle.table_maker.specs.declared.make_error.MakeError.TheVariants.{NoMemory};

use std::alloc::AllocError;
use thiserror::Error;

/// Why no type file is made. Where several hold, the first in the order of this list is answered.
#[derive(Clone, Copy, Debug, PartialEq, Eq, Error)]
pub enum MakeError {
    /// A parameter is out of its range or in a wrong order.
    #[error("BadParameter")]
    BadParameter,
    /// The family has more than 64 operations or more than 1,024 states at these parameters.
    #[error("TooLarge")]
    TooLarge,
    /// Memory was refused.
    #[error("no memory")]
    NoMemory,
}

impl From<AllocError> for MakeError {
    ghost from_gives = { λ _ error. error ≡ NoMemory };

    fn from(_error: AllocError) -> MakeError {
        MakeError::NoMemory
    }
}
