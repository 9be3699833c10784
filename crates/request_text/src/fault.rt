use std::fmt;
use thiserror::Error;

/// Why a line is no request, in the order of the tests.
#[derive(Clone, Copy, Debug, PartialEq, Eq, Error)]
pub enum RequestFault {
    /// The line has more than 4,096 bytes with its LF.
    TooLong,
    /// A byte outside 32 to 126.
    NotAscii,
    /// The line doesn't begin with a tag, which is a name.
    BadTag,
    /// No request has this verb.
    UnknownVerb,
    /// A wrong number of words, or a word that isn't the name that is asked for.
    BadWords,
    /// A word that isn't the number, the object or the transaction that is asked for.
    BadNumber,
}

/// Writes the variant's name.
impl fmt::Display for RequestFault {
    fn fmt<W: fmt::Write>(&self, f: &mut fmt::Formatter<W>) -> fmt::Result {
        fmt::Debug::fmt(self, f)
    }
}
