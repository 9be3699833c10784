use std::fmt;
use thiserror::Error;

/// Why workers did not do all their jobs.
#[derive(Clone, Copy, Debug, PartialEq, Eq, Error)]
pub enum WorkFault {
    /// There aren't 1 to 16 lists of jobs.
    BadWorkers,
    /// Not 1 to 100 tries are to be made.
    BadTries,
    /// A growth before the first thread, or the start of a thread, was refused.
    NoMemory,
}

/// Writes the variant's name.
impl fmt::Display for WorkFault {
    fn fmt<W: fmt::Write>(&self, f: &mut fmt::Formatter<W>) -> fmt::Result {
        fmt::Debug::fmt(self, f)
    }
}
