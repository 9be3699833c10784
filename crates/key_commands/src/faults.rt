//! What an error of a file says of the database at its path.

ghost use Rattle.std.specs.Prelude.{⊤};
ghost use Rattle.command_files.specs.Answers.{IsEarlyFault};

use command_files::{DatabaseFault, Fault};
use database_files::OpenFault;
use journal::JournalError;
use sqlite_trees::error::StoreError;

/// Why a database isn't opened.
pub(crate) fn fault_of_unopened<'a>(path: &'a str, fault: OpenFault) -> Fault<'a>
    ensures { IsEarlyFault ⊤ result }
{
    match fault {
        OpenFault::NoDatabase => Fault::NoStore { path },
        OpenFault::Database(fault) => Fault::of_database(path, fault),
    }
}

/// Why a journal isn't opened or read.
pub(crate) fn fault_of_journal<'a>(path: &'a str, error: JournalError) -> Fault<'a>
    ensures { IsEarlyFault ⊤ result }
{
    match error {
        JournalError::Store(StoreError::OutOfMemory) => Fault::NoMemory,
        JournalError::Store(_) => Fault::of_database(path, DatabaseFault::Failed),
        JournalError::Full | JournalError::Foreign => Fault::NoStore { path },
    }
}
