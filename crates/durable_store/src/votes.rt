//! What is asked of a transaction that is prepared, and what is answered.

use journal::Outcome;

/// What came of a `prepare`.
#[derive(Drop)]
pub enum Vote {
    /// The transaction is prepared now: nothing but a decision ends it.
    Prepared,
    /// It was prepared under this key before.
    Again,
    /// It isn't open.
    NotOpen,
    /// It is prepared under another key.
    Otherwise,
    /// Another transaction is prepared under this key.
    KeyInUse,
    /// The key says what became of its transaction.
    Known(Outcome),
    /// The place of the key is another key's.
    Taken,
}

/// How a transaction ends that is prepared.
#[derive(Clone, Copy, Debug, PartialEq, Eq)]
pub enum Decision {
    Commit,
    Abort,
}

/// What came of a `decide`.
#[derive(Drop)]
pub enum Verdict {
    /// It is decided so, now or before.
    Decided,
    /// It was decided otherwise, and this became of it.
    Otherwise(Outcome),
    /// Nobody is prepared under the key, so nobody can commit.
    Unknown,
    /// The place of the key is another key's.
    Taken,
}
