//! The requests that prepare a transaction and that decide how it ends.

ghost use Rattle.std.specs.Prelude.{◌≡◌, map};
ghost use Rattle.request_text.specs.Preparing.{prepare_request_of, decide_request_of, decision_at, decision_word};

use crate::fault::RequestFault;
use crate::request::{Decision, Request};
use crate::shapes::{exactly, key_at, number_at, transaction_at, word};

/// A transaction, its key, and until when it waits; else `BadWords` of the number of words or of the key, then
/// `BadNumber`.
#[tactic(auto, unfolding(crate::specs::Preparing::prepare_request_of))]
pub fn prepare_of(words: &[&[u8]]) -> Result<Request, RequestFault>
    ensures { result ≡ prepare_request_of (map (λ w. w.now) words.now) }
{
    exactly(words, 4)?;
    let key = key_at(words, 2)?;
    let t = transaction_at(words, 1)?;
    let until = number_at(words, 3)?;
    Ok(Request::Prepare { t, key, until })
}

/// A key, and how its transaction is to end; else `BadWords`.
#[tactic(auto, unfolding(crate::specs::Preparing::decide_request_of))]
pub fn decide_of(words: &[&[u8]]) -> Result<Request, RequestFault>
    ensures { result ≡ decide_request_of (map (λ w. w.now) words.now) }
{
    exactly(words, 3)?;
    let key = key_at(words, 1)?;
    let decision = decision_at(words, 2)?;
    Ok(Request::Decide { key, decision })
}

/// The decision at a position; else `BadWords`.
#[tactic(auto, unfolding(crate::specs::Preparing::decision_at))]
fn decision_at(words: &[&[u8]], position: usize) -> Result<Decision, RequestFault>
    ensures { result ≡ decision_at (map (λ w. w.now) words.now) position }
{
    decision_word(word(words, position))
}

/// The decision that a word says, `commit` or `abort`; else `BadWords`.
fn decision_word(word: &[u8]) -> Result<Decision, RequestFault>
    ensures { result ≡ decision_word word.now }
{
    if word == b"commit".as_slice() {
        Ok(Decision::Commit)
    } else if word == b"abort".as_slice() {
        Ok(Decision::Abort)
    } else {
        Err(RequestFault::BadWords)
    }
}
