//! Why an audit of histories one after another has no yes.

ghost use Rattle.std.specs.Prelude.{◌≡◌};
ghost use Rattle.history_judge.specs.declared.outcome.AuditFault.TheVariants.{NoMemory};

use history_judge::AuditFault;
use std::alloc::{AllocError, AllocFailed};
use thiserror::Error;

/// Why an audit of histories one after another has no yes.
#[derive(Clone, Copy, Debug, PartialEq, Eq, Error)]
#[error("epoch {epoch}: {fault}")]
pub struct EpochFault {
    /// The place of the history that has none, from 0.
    pub epoch: usize,
    /// Why it has none.
    pub fault: AuditFault,
}

impl From<AllocError> for EpochFault {
    ghost from_gives = { λ _ fault. fault.fault ≡ NoMemory };

    fn from(_error: AllocError) -> EpochFault {
        EpochFault {
            epoch: 0,
            fault: AuditFault::NoMemory,
        }
    }
}

impl<T: Drop> From<AllocFailed<T>> for EpochFault {
    ghost from_gives = { λ _ fault. fault.fault ≡ NoMemory };

    fn from(_error: AllocFailed<T>) -> EpochFault {
        EpochFault {
            epoch: 0,
            fault: AuditFault::NoMemory,
        }
    }
}
