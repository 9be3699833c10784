use std::fmt;
use thiserror::Error;

/// Why parts are no table.
#[derive(Clone, Copy, Debug, PartialEq, Eq, Error)]
pub enum TableError {
    /// The states aren't 1 to 1,024, the operations not 1 to 64, or there isn't a step entry for each of both.
    BadCount,
    /// The initial state is none of the states.
    BadInitial,
    /// A step leads to none of the states.
    BadStep,
    /// Two operations have the same call and the same reply.
    TwiceOp,
}

/// Writes the variant's name.
impl fmt::Display for TableError {
    fn fmt<W: fmt::Write>(&self, f: &mut fmt::Formatter<W>) -> fmt::Result {
        fmt::Debug::fmt(self, f)
    }
}
