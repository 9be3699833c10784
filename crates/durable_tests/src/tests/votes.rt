//! What is asked of transactions that are prepared, and what it comes to.

ghost use Rattle.std.specs.Prelude.{OnOk};
ghost use Rattle.durable_store.specs.Durable.{IsDurable};

use super::counters::counts;
use durable_store::{Decision, Denial, Durable, Keyed, Verdict, Vote};
use journal::{GivenName, JournalError, Outcome, Prepared};
use sqlite_trees::store::Alter;
use std::alloc::Global;
use transaction_key::TransactionKey;

/// What a `prepare` comes to.
#[derive(Clone, Copy, PartialEq, Eq)]
pub enum Voted {
    Prepared,
    Again,
    NotOpen,
    Otherwise,
    KeyInUse,
    Committed,
    Aborted,
}

/// What a decision comes to.
#[derive(Clone, Copy, PartialEq, Eq)]
pub enum Judged {
    Decided,
    Otherwise,
    Unknown,
}

/// What a commit under a key comes to.
#[derive(Clone, Copy, PartialEq, Eq)]
pub enum Kept {
    Done,
    KnownAborted,
    Prepared,
}

/// The name of a transaction that a client knows, in these tests.
fn given_name(number: u32) -> GivenName {
    GivenName { life: 1, number }
}

/// Asks that transaction t be prepared under a key. None where its place is another key's, or these bytes are none.
pub fn vote_on<S: Alter>(
    alloc: Global,
    store: &mut Durable<S>,
    t: u32,
    key: &[u8],
) -> Result<Option<Voted>, JournalError>
    requires { IsDurable S.Store store.old }
    ensures { OnOk result (IsDurable S.Store store.new) }
{
    let Some(key) = TransactionKey::from_bytes(key) else {
        return Ok(None);
    };
    let prepared = Prepared {
        key,
        given: given_name(t),
        number: t,
        until: 9,
    };
    let vote = store.prepare(alloc, prepared)?;
    Ok(voted_of(vote))
}

fn voted_of(vote: Vote) -> Option<Voted> {
    match vote {
        Vote::Prepared => Some(Voted::Prepared),
        Vote::Again => Some(Voted::Again),
        Vote::NotOpen => Some(Voted::NotOpen),
        Vote::Otherwise => Some(Voted::Otherwise),
        Vote::KeyInUse => Some(Voted::KeyInUse),
        Vote::Known(Outcome::Committed(_)) => Some(Voted::Committed),
        Vote::Known(Outcome::Aborted) => Some(Voted::Aborted),
        Vote::Taken => None,
    }
}

/// Asks for a decision under a key. None where its place is another key's, or these bytes are none.
pub fn decide_on<S: Alter>(
    alloc: Global,
    store: &mut Durable<S>,
    key: &[u8],
    decision: Decision,
) -> Result<Option<Judged>, JournalError>
    requires { IsDurable S.Store store.old }
    ensures { OnOk result (IsDurable S.Store store.new) }
{
    let Some(key) = TransactionKey::from_bytes(key) else {
        return Ok(None);
    };
    let verdict = store.decide(alloc, key, decision)?;
    Ok(judged_of(verdict))
}

fn judged_of(verdict: Verdict) -> Option<Judged> {
    match verdict {
        Verdict::Decided => Some(Judged::Decided),
        Verdict::Otherwise(_) => Some(Judged::Otherwise),
        Verdict::Unknown => Some(Judged::Unknown),
        Verdict::Taken => None,
    }
}

/// Whether transaction t is told to be prepared, and a call, a rollback, a commit and an abort of it are denied.
pub fn is_denied<S: Alter>(store: &mut Durable<S>, t: u32) -> Result<bool, JournalError>
    requires { IsDurable S.Store store.old }
    ensures { OnOk result (IsDurable S.Store store.new) }
{
    let is_told = store.is_prepared(t);
    let called = store.call(t, 0, b"inc:1")? == Err(Denial::Prepared);
    let rolled_back = store.rollback(t, 1)? == Err(Denial::Prepared);
    let committed = store.commit(t)? == Err(Denial::Prepared);
    let aborted = store.abort(t)? == Err(Denial::Prepared);
    Ok(is_told & called & rolled_back & committed & aborted)
}

/// Transaction t, which is the next one, counts up at the first object and commits under a key. None where it comes to
/// nothing of these.
pub fn commit_on<S: Alter>(
    alloc: Global,
    store: &mut Durable<S>,
    t: u32,
    key: &[u8],
) -> Result<Option<Kept>, JournalError>
    requires { IsDurable S.Store store.old }
    ensures { OnOk result (IsDurable S.Store store.new) }
{
    let Some(key) = TransactionKey::from_bytes(key) else {
        return Ok(None);
    };
    let begun = store.begin()? == Ok(t);
    let counted = counts(store, t, 0)?;
    let came = store.commit_under(alloc, t, key)?;
    if begun & counted {
        Ok(kept_of(came))
    } else {
        Ok(None)
    }
}

fn kept_of(came: Keyed<Denial>) -> Option<Kept> {
    match came {
        Keyed::Done(_) => Some(Kept::Done),
        Keyed::Known(Outcome::Aborted) => Some(Kept::KnownAborted),
        Keyed::Prepared => Some(Kept::Prepared),
        _ => None,
    }
}
