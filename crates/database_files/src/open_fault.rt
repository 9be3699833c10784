//! Why a database isn't opened.

use crate::faults::fault_of_system;
use command_files::DatabaseFault;
use std::alloc::AllocError;
use std::io;
use thiserror::Error;

/// Why a database isn't opened.
#[derive(Clone, Copy, Debug, PartialEq, Eq, Error)]
pub enum OpenFault {
    /// The file at the path is none of a database, and stays as it is.
    #[error("not a database")]
    NoDatabase,
    /// The system, SQLite or memory refuses it.
    #[error("{0}")]
    Database(DatabaseFault),
}

impl From<DatabaseFault> for OpenFault {
    fn from(fault: DatabaseFault) -> OpenFault {
        OpenFault::Database(fault)
    }
}

impl From<io::Error> for OpenFault {
    fn from(error: io::Error) -> OpenFault {
        OpenFault::Database(fault_of_system(error))
    }
}

impl From<AllocError> for OpenFault {
    fn from(_: AllocError) -> OpenFault {
        OpenFault::Database(DatabaseFault::NoMemory)
    }
}
