use crate::archive::ArchiveFault;
use durable_store::OpenError;
use journal::JournalError;
use outputs::OutFault;
use std::alloc::{AllocError, AllocFailed};
use store::CarryRefusal;
use thiserror::Error;

/// Why a store isn't served any more.
#[derive(Clone, Copy, Debug, PartialEq, Eq, Error)]
pub enum ServeFault {
    /// The file failed, or memory was refused for it.
    #[error("{0}")]
    Journal(JournalError),
    /// The archive didn't keep the history of an epoch that was to end: the file has it all.
    #[error("{0}")]
    Archive(ArchiveFault),
    /// The store doesn't get the objects that were asked for, though they were tested before.
    #[error("{0}")]
    Extension(OpenError),
    /// What is asked can't be read.
    #[error("the input failed")]
    Input,
    /// The output failed.
    #[error("{0}")]
    Output(OutFault),
    /// Memory was refused.
    #[error("no memory")]
    NoMemory,
}

impl From<JournalError> for ServeFault {
    ghost from_gives = { λ _ _. Unit {0} };

    fn from(error: JournalError) -> ServeFault {
        ServeFault::Journal(error)
    }
}

impl From<OpenError> for ServeFault {
    ghost from_gives = { λ _ _. Unit {0} };

    fn from(error: OpenError) -> ServeFault {
        match error {
            OpenError::Journal(error) => ServeFault::Journal(error),
            OpenError::NoMemory | OpenError::NotExtended(CarryRefusal::NoMemory) => {
                ServeFault::NoMemory
            }
            error => ServeFault::Extension(error),
        }
    }
}

impl From<ArchiveFault> for ServeFault {
    ghost from_gives = { λ _ _. Unit {0} };

    fn from(fault: ArchiveFault) -> ServeFault {
        ServeFault::Archive(fault)
    }
}

impl From<OutFault> for ServeFault {
    ghost from_gives = { λ _ _. Unit {0} };

    fn from(fault: OutFault) -> ServeFault {
        ServeFault::Output(fault)
    }
}

impl From<AllocError> for ServeFault {
    ghost from_gives = { λ _ _. Unit {0} };

    fn from(_: AllocError) -> ServeFault {
        ServeFault::NoMemory
    }
}

impl<T: Drop> From<AllocFailed<T>> for ServeFault {
    ghost from_gives = { λ _ _. Unit {0} };

    fn from(_: AllocFailed<T>) -> ServeFault {
        ServeFault::NoMemory
    }
}
