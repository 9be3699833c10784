//! Why a command comes to no answer.

ghost use Rattle.std.specs.Prelude.{◌≡◌};
ghost use Rattle.command_files.specs.Answers.{IsEarlyFault};
ghost use Rattle.command_files.specs.Status.{status_of};
ghost use Rattle.command_files.specs.declared.fault.Fault.TheVariants.{NoMemory, Output};

use crate::database_fault::DatabaseFault;
use crate::order_fault::OrderFault;
use crate::status::Status;
use line_text::TextFault;
use outputs::OutFault;
use std::alloc::{AllocError, AllocFailed, Global};

/// Why a command comes to no answer. Paths are those of the command line.
#[derive(Drop)]
pub enum Fault<'a> {
    /// The words name no task.
    Usage {
        /// What is said to the user, with its line ends.
        text: String,
    },
    /// The text at a path has a fault, which isn't that memory was refused.
    Text {
        path: &'a str,
        fault: TextFault,
    },
    /// No TYPE word is at the place that object x of the text at a path names.
    NoType {
        path: &'a str,
        x: usize,
        place: u16,
    },
    /// The text at a path declares a number, where a table was asked for.
    NeedsEscrow {
        path: &'a str,
    },
    /// Object x of the text at a path names a number, and is of another kind than escrow.
    ObjectNeedsEscrow {
        path: &'a str,
        x: usize,
    },
    /// Object x of the text at a path has a name that an object of the store has.
    NameTaken {
        path: &'a str,
        x: usize,
    },
    /// The history at a path isn't one of the objects of the first one.
    OtherObjects {
        path: &'a str,
        first: &'a str,
    },
    /// The committed transactions of the history at a path may not be asked for in the order that was given.
    Order {
        path: &'a str,
        fault: OrderFault,
    },
    /// The text at a path has events, where there may be none.
    HasEvents {
        path: &'a str,
    },
    /// The parameters of a family are none.
    BadParameter,
    /// A family is too large at its parameters.
    TooLarge,
    /// The file at a path can't be read.
    CannotRead {
        path: &'a str,
    },
    /// The database at a path isn't opened, made or used, which isn't that memory was refused.
    Database {
        path: &'a str,
        fault: DatabaseFault,
    },
    /// The database at a path isn't one of a store.
    NoStore {
        path: &'a str,
    },
    /// Memory was refused.
    NoMemory,
    /// The output failed.
    Output,
}

impl<'a> Fault<'a> {
    /// Of the database at a path.
    pub fn of_database(path: &'a str, fault: DatabaseFault) -> Fault<'a>
        ensures { IsEarlyFault ⊥ result }
    {
        match fault {
            DatabaseFault::NoMemory => Fault::NoMemory,
            _ => Fault::Database { path, fault },
        }
    }

    /// The status with which the program ends.
    pub fn status(&self) -> Status
        ensures { result ≡ status_of self.now }
    {
        match self {
            Fault::Usage { .. }
            | Fault::Text { .. }
            | Fault::NoType { .. }
            | Fault::NeedsEscrow { .. }
            | Fault::ObjectNeedsEscrow { .. }
            | Fault::NameTaken { .. }
            | Fault::OtherObjects { .. }
            | Fault::Order { .. }
            | Fault::HasEvents { .. }
            | Fault::BadParameter
            | Fault::TooLarge
            | Fault::NoStore { .. } => Status::BadInput,
            Fault::CannotRead { .. } | Fault::Database { .. } | Fault::NoMemory | Fault::Output =>
                Status::Failed,
        }
    }

    /// The line on standard error, which is empty where the output failed.
    pub fn line(&self, alloc: Global) -> Result<String, AllocError> {
        match self {
            Fault::Usage { text } => text.clone(),
            Fault::Text { path, fault } => format!(in alloc; "colock: {path}: {fault}\n"),
            Fault::NoType { path, x, place } => {
                format!(in alloc; "colock: {path}: object {x}: no type {place}\n")
            }
            Fault::NeedsEscrow { path } => {
                format!(in alloc; "colock: {path}: number needs escrow\n")
            }
            Fault::ObjectNeedsEscrow { path, x } => {
                format!(in alloc; "colock: {path}: object {x}: number needs escrow\n")
            }
            Fault::NameTaken { path, x } => {
                format!(in alloc; "colock: {path}: object {x}: name taken\n")
            }
            Fault::OtherObjects { path, first } => {
                format!(in alloc; "colock: {path}: not the objects of {first}\n")
            }
            Fault::Order { path, fault } => format!(in alloc; "colock: {path}: order: {fault}\n"),
            Fault::HasEvents { path } => format!(in alloc; "colock: {path}: has events\n"),
            Fault::BadParameter => String::from_str(alloc, "colock: BadParameter\n"),
            Fault::TooLarge => String::from_str(alloc, "colock: TooLarge\n"),
            Fault::CannotRead { path } => format!(in alloc; "colock: {path}: cannot read\n"),
            Fault::Database { path, fault } => format!(in alloc; "colock: {path}: {fault}\n"),
            Fault::NoStore { path } => format!(in alloc; "colock: {path}: not a store\n"),
            Fault::NoMemory => String::from_str(alloc, "colock: no memory\n"),
            Fault::Output => String::from_str(alloc, ""),
        }
    }
}

impl From<AllocError> for Fault<'_> {
    ghost from_gives = { λ _ fault. fault ≡ NoMemory };

    fn from(_error: AllocError) -> Self {
        Fault::NoMemory
    }
}

impl<T: Drop> From<AllocFailed<T>> for Fault<'_> {
    ghost from_gives = { λ _ fault. fault ≡ NoMemory };

    fn from(_error: AllocFailed<T>) -> Self {
        Fault::NoMemory
    }
}

impl From<OutFault> for Fault<'_> {
    ghost from_gives = { λ _ fault. fault ≡ Output };

    fn from(_fault: OutFault) -> Self {
        Fault::Output
    }
}
