use std::fmt;
use thiserror::Error;

/// Why a store refuses a command. A refusal changes nothing and is no event.
#[derive(Clone, Copy, Debug, PartialEq, Eq, Error)]
pub enum Refusal {
    /// The transaction isn't open.
    NotOpen,
    /// There is no object at this place.
    NoObject,
    /// No operation of the object's type has this call name.
    NoCall,
    /// 1,024 transactions are open.
    TooManyOpen,
    /// The history has no room for the event, and for the end of each open transaction.
    HistoryFull,
    /// A growth was refused.
    NoMemory,
    /// A rollback of no operation, or of more than the transaction has.
    BadRollback,
}

/// Writes the variant's name.
impl fmt::Display for Refusal {
    fn fmt<W: fmt::Write>(&self, f: &mut fmt::Formatter<W>) -> fmt::Result {
        fmt::Debug::fmt(self, f)
    }
}
