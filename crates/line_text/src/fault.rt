ghost use Rattle.std.specs.Prelude.{◌≡◌};
ghost use Rattle.line_text.specs.declared.fault.FaultKind.TheVariants.{NoMemory};

use std::alloc::{AllocError, AllocFailed};
use std::fmt;
use thiserror::Error;

/// Why a line is refused, with the number that the format gives it.
#[derive(Clone, Copy, Debug, PartialEq, Eq, Error)]
pub enum FaultKind {
    /// A byte outside 32 to 126.
    NotAscii = 1,
    /// More than 200 bytes.
    LineTooLong = 2,
    /// No LF ends the line.
    Unterminated = 3,
    /// An unknown keyword, a wrong number of words, or a word that isn't the name or kind that is asked for.
    UnknownWord = 4,
    /// A word that isn't the number that is asked for.
    BadNumber = 5,
    /// A number out of its range, or a section with too many lines.
    OutOfRange = 6,
    /// A section of a lower rank than the last, a second line of a single one, or an entry that doesn't ascend.
    OutOfOrder = 7,
    /// A section that must be there hasn't come.
    Missing = 8,
    /// A line after `end`.
    AfterEnd = 9,
    /// An operation that came before.
    TwiceOp = 10,
    /// Memory was refused while the line was read.
    NoMemory = 11,
    /// An object's name that came before.
    TwiceName = 12,
}

/// Writes the variant's name.
impl fmt::Display for FaultKind {
    fn fmt<W: fmt::Write>(&self, f: &mut fmt::Formatter<W>) -> fmt::Result {
        fmt::Debug::fmt(self, f)
    }
}

/// The first refused line of a text.
#[derive(Clone, Copy, Debug, PartialEq, Eq, Error)]
#[error("line {line}: {kind}")]
pub struct TextFault {
    /// The line's number, from 1. Where the text ends too early, the number of its lines plus 1.
    pub line: usize,
    /// The first test that refuses it.
    pub kind: FaultKind,
}

impl From<AllocError> for FaultKind {
    ghost from_gives = { λ _ kind. kind ≡ NoMemory };

    fn from(_error: AllocError) -> FaultKind {
        FaultKind::NoMemory
    }
}

impl<T: Drop> From<AllocFailed<T>> for FaultKind {
    ghost from_gives = { λ _ kind. kind ≡ NoMemory };

    fn from(_error: AllocFailed<T>) -> FaultKind {
        FaultKind::NoMemory
    }
}
