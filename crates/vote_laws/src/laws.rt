//! Laws of votes and decisions: each is a function that does nothing, whose contract is the law.

ghost use Rattle.vote_laws.specs.Laws.{DecisionIsKept, KnownIsAnswered, VoteStays};

/// A decision that was done is kept: the file says of its key what was decided.
pub fn decisions_are_kept()
    ensures { DecisionIsKept }
{}

/// Where a file says what became of a key's transaction, each decision under it is answered by that, and nothing changes.
pub fn what_is_decided_stays()
    ensures { KnownIsAnswered }
{}

/// A transaction that was prepared is so from then on, until it is decided: it is asked again in vain under another key,
/// and under its own it is told that it is prepared.
pub fn votes_stay()
    ensures { VoteStays }
{}
