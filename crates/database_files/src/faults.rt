//! What an error of the system or of a database says of its file.

use command_files::DatabaseFault;
use sqlite::{Error, ErrorCode};
use sqlite_std_file::OpenError;
use sqlite_trees::error::StoreError;
use std::io;

/// Of an error of the system.
pub(crate) fn fault_of_system(error: io::Error) -> DatabaseFault {
    match error.kind() {
        io::ErrorKind::OutOfMemory => DatabaseFault::NoMemory,
        io::ErrorKind::AlreadyExists => DatabaseFault::Present,
        io::ErrorKind::NotFound => DatabaseFault::Missing,
        _ => DatabaseFault::CannotOpen,
    }
}

/// Of files that aren't opened.
pub(crate) fn fault_of_files(error: OpenError) -> DatabaseFault {
    match error {
        OpenError::OutOfMemory => DatabaseFault::NoMemory,
        OpenError::Busy => DatabaseFault::Busy,
        OpenError::HotJournal => DatabaseFault::CannotOpen,
        OpenError::Io(error) => fault_of_system(error),
    }
}

/// Of an error of a database.
pub(crate) fn fault_of_database(error: Error) -> DatabaseFault {
    match error {
        Error::SqliteFailure(ErrorCode::OutOfMemory) => DatabaseFault::NoMemory,
        Error::SqliteFailure(ErrorCode::DatabaseBusy) => DatabaseFault::Busy,
        _ => DatabaseFault::CannotOpen,
    }
}

/// Of trees whose log isn't moved into their file.
pub(crate) fn fault_of_trees(error: StoreError) -> DatabaseFault {
    match error {
        StoreError::OutOfMemory => DatabaseFault::NoMemory,
        _ => DatabaseFault::Failed,
    }
}
