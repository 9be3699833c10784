//! What an error of a store says of the database at its path.

ghost use Rattle.std.specs.Prelude.{⊤};
ghost use Rattle.command_files.specs.Answers.{IsEarlyFault};

use command_files::{DatabaseFault, Fault};
use database_files::OpenFault;
use durable_store::OpenError;
use journal::JournalError;
use sqlite_trees::error::StoreError;

/// Why a database isn't opened.
pub fn fault_of_unopened<'a>(path: &'a str, fault: OpenFault) -> Fault<'a>
    ensures { IsEarlyFault ⊤ result }
{
    match fault {
        OpenFault::NoDatabase => Fault::NoStore { path },
        OpenFault::Database(fault) => Fault::of_database(path, fault),
    }
}

/// Why a database that was opened isn't one of a store.
pub fn fault_of_open<'a>(path: &'a str, error: OpenError) -> Fault<'a>
    ensures { IsEarlyFault ⊤ result }
{
    match error {
        OpenError::NoMemory => Fault::NoMemory,
        OpenError::Journal(error) => fault_of_journal(path, error),
        _ => Fault::NoStore { path },
    }
}

/// Why a journal isn't opened.
pub(crate) fn fault_of_journal<'a>(path: &'a str, error: JournalError) -> Fault<'a>
    ensures { IsEarlyFault ⊤ result }
{
    match error {
        JournalError::Store(error) => fault_of_trees(path, error),
        JournalError::Full | JournalError::Foreign => Fault::NoStore { path },
    }
}

/// Why the file of a store that was opened fails.
pub fn fault_of_file<'a>(path: &'a str, error: JournalError) -> Fault<'a>
    ensures { IsEarlyFault ⊥ result }
{
    match error {
        JournalError::Store(error) => fault_of_trees(path, error),
        JournalError::Full | JournalError::Foreign => {
            Fault::of_database(path, DatabaseFault::Failed)
        }
    }
}

/// Why a new store isn't made of what was tested before.
pub fn fault_of_making<'a>(path: &'a str, error: OpenError) -> Fault<'a>
    ensures { IsEarlyFault ⊥ result }
{
    match error {
        OpenError::NoMemory => Fault::NoMemory,
        OpenError::Journal(error) => fault_of_file(path, error),
        _ => Fault::of_database(path, DatabaseFault::Failed),
    }
}

/// Why trees fail.
fn fault_of_trees<'a>(path: &'a str, error: StoreError) -> Fault<'a>
    ensures { IsEarlyFault ⊥ result }
{
    match error {
        StoreError::OutOfMemory => Fault::NoMemory,
        _ => Fault::of_database(path, DatabaseFault::Failed),
    }
}
