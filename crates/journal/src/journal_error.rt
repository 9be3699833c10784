use sqlite_trees::error::StoreError;
use std::alloc::{AllocError, AllocFailed};
use thiserror::Error;

/// Why a call fails.
#[derive(Clone, Copy, Debug, PartialEq, Eq, Error)]
pub enum JournalError {
    /// The file failed, or memory was refused.
    #[error("{0}")]
    Store(StoreError),
    /// A table has as many rows as there are positions.
    #[error("a table of the file is full")]
    Full,
    /// A row of a table is none that a store writes.
    #[error("the file isn't one of a store")]
    Foreign,
}

impl From<StoreError> for JournalError {
    ghost use Rattle.std.specs.Prelude.{◌≡◌};
    ghost use Rattle.journal.specs.declared.journal_error.JournalError.{JournalError};

    ghost from_gives = { λ e r. r ≡ JournalError.Store e };

    fn from(error: StoreError) -> JournalError {
        JournalError::Store(error)
    }
}

impl From<AllocError> for JournalError {
    ghost use Rattle.std.specs.Prelude.{◌≡◌};
    ghost use Rattle.journal.specs.declared.journal_error.JournalError.{JournalError};
    ghost use Rattle.sqlite_trees.specs.declared.error.StoreError.{StoreError};

    ghost from_gives = { λ _ r. r ≡ JournalError.Store StoreError.OutOfMemory };

    fn from(_: AllocError) -> JournalError {
        JournalError::Store(StoreError::OutOfMemory)
    }
}

impl<T: Drop> From<AllocFailed<T>> for JournalError {
    ghost use Rattle.std.specs.Prelude.{◌≡◌};
    ghost use Rattle.journal.specs.declared.journal_error.JournalError.{JournalError};
    ghost use Rattle.sqlite_trees.specs.declared.error.StoreError.{StoreError};

    ghost from_gives = { λ _ r. r ≡ JournalError.Store StoreError.OutOfMemory };

    fn from(_: AllocFailed<T>) -> JournalError {
        JournalError::Store(StoreError::OutOfMemory)
    }
}
