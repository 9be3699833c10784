use std::fmt;
use thiserror::Error;

/// Why no store is made of these objects. They come back.
#[derive(Clone, Copy, Debug, PartialEq, Eq, Error)]
pub enum NewRefusal {
    /// There is no object.
    NoObjects,
    /// There are more objects than the limits say.
    TooManyObjects,
    /// An object isn't as it was made.
    NotFresh,
    /// A limit is out of its range.
    BadMax,
    /// Memory was refused.
    NoMemory,
}

/// Writes the variant's name.
impl fmt::Display for NewRefusal {
    fn fmt<W: fmt::Write>(&self, f: &mut fmt::Formatter<W>) -> fmt::Result {
        fmt::Debug::fmt(self, f)
    }
}

/// Why a store doesn't begin anew. It comes back.
#[derive(Clone, Copy, Debug, PartialEq, Eq, Error)]
pub enum RenewRefusal {
    /// A transaction is open.
    StillOpen,
    /// Memory was refused.
    NoMemory,
}

/// Writes the variant's name.
impl fmt::Display for RenewRefusal {
    fn fmt<W: fmt::Write>(&self, f: &mut fmt::Formatter<W>) -> fmt::Result {
        fmt::Debug::fmt(self, f)
    }
}

/// Why a store doesn't begin anew with these transactions, and with objects more. It comes back.
#[derive(Clone, Copy, Debug, PartialEq, Eq, Error)]
pub enum CarryRefusal {
    /// One of them isn't open, or isn't greater than the one before it.
    NotOpen,
    /// There would be more objects than the limits say.
    TooManyObjects,
    /// An object that is added isn't as it was made.
    NotFresh,
    /// Memory was refused.
    NoMemory,
}

/// Writes the variant's name.
impl fmt::Display for CarryRefusal {
    fn fmt<W: fmt::Write>(&self, f: &mut fmt::Formatter<W>) -> fmt::Result {
        fmt::Debug::fmt(self, f)
    }
}

/// Why a store doesn't begin anew with more objects. It comes back.
#[derive(Clone, Copy, Debug, PartialEq, Eq, Error)]
pub enum ExtendRefusal {
    /// A transaction is open.
    StillOpen,
    /// There would be more objects than the limits say.
    TooManyObjects,
    /// An object that is added isn't as it was made.
    NotFresh,
    /// Memory was refused.
    NoMemory,
}

/// Writes the variant's name.
impl fmt::Display for ExtendRefusal {
    fn fmt<W: fmt::Write>(&self, f: &mut fmt::Formatter<W>) -> fmt::Result {
        fmt::Debug::fmt(self, f)
    }
}

/// Why a call isn't answered to a transaction that only reads.
#[derive(Clone, Copy, Debug, PartialEq, Eq, Error)]
pub enum PeekRefusal {
    /// There is no object at this place.
    NoObject,
    /// The object has no call with this name.
    NoCall,
    /// Some operation of the call changes something.
    Changes,
}

/// Writes the variant's name.
impl fmt::Display for PeekRefusal {
    fn fmt<W: fmt::Write>(&self, f: &mut fmt::Formatter<W>) -> fmt::Result {
        fmt::Debug::fmt(self, f)
    }
}
