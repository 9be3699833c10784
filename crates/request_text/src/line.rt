//! The requests, by their verbs.

ghost use Rattle.std.specs.Prelude.{◌≡◌, map};
ghost use Rattle.request_text.specs.Requests.{request_of, question_of, alone, call_request_of, would_of, commit_request_of, keyed_commit_of, plain_commit_of, keyed_do_of, do_request_of, outcome_request_of, abort_request_of, rollback_request_of, extend_request_of, calls_request_of, objects_request_of, kept_of, find_of, events_request_of};

use crate::calls::{behind_verb, has_calls, has_objects};
use crate::fault::RequestFault;
use crate::preparing::{decide_of, prepare_of};
use crate::request::Request;
use crate::shapes::{
    asked_name_at, at_least, exactly, is_keyed, is_verb, key_at, key_in_front, name_at, number_at,
    object_at, transaction_at, word,
};

/// The request of these words.
#[tactic(auto, unfolding(crate::specs::Requests::request_of))]
pub fn request_of(words: &[&[u8]]) -> Result<Request, RequestFault>
    ensures { result ≡ request_of (map (λ w. w.now) words.now) }
{
    if is_verb(words, "begin") {
        return alone(words, Request::Begin);
    }
    if is_verb(words, "call") {
        return call_of(words);
    }
    if is_verb(words, "would") {
        return would_of(words);
    }
    if is_verb(words, "commit") {
        return commit_of(words);
    }
    if is_verb(words, "abort") {
        return abort_of(words);
    }
    if is_verb(words, "rollback") {
        return rollback_of(words);
    }
    if is_verb(words, "extend") {
        return extend_of(words);
    }
    if is_verb(words, "do") {
        return do_of(words);
    }
    if is_verb(words, "prepare") {
        return prepare_of(words);
    }
    if is_verb(words, "decide") {
        return decide_of(words);
    }
    question_of(words)
}

/// The request of these words, where it changes nothing.
#[tactic(auto, unfolding(crate::specs::Requests::question_of))]
fn question_of(words: &[&[u8]]) -> Result<Request, RequestFault>
    ensures { result ≡ question_of (map (λ w. w.now) words.now) }
{
    if is_verb(words, "kept") {
        kept_of(words)
    } else if is_verb(words, "peek") {
        calls_of(words, Request::Peek)
    } else if is_verb(words, "committed") {
        objects_of(words)
    } else if is_verb(words, "outcome") {
        outcome_of(words)
    } else if is_verb(words, "prepared") {
        alone(words, Request::Prepared)
    } else if is_verb(words, "find") {
        find_of(words)
    } else if is_verb(words, "objects") {
        alone(words, Request::Objects)
    } else if is_verb(words, "types") {
        alone(words, Request::Types)
    } else if is_verb(words, "events") {
        events_of(words)
    } else if is_verb(words, "stats") {
        alone(words, Request::Stats)
    } else if is_verb(words, "end") {
        alone(words, Request::End)
    } else {
        Err(RequestFault::UnknownVerb)
    }
}

#[tactic(auto, unfolding(crate::specs::Requests::alone))]
fn alone(words: &[&[u8]], request: Request) -> Result<Request, RequestFault>
    ensures { result ≡ alone (map (λ w. w.now) words.now) request }
{
    exactly(words, 1)?;
    Ok(request)
}

#[tactic(auto, unfolding(crate::specs::Requests::call_request_of))]
fn call_of(words: &[&[u8]]) -> Result<Request, RequestFault>
    ensures { result ≡ call_request_of (map (λ w. w.now) words.now) }
{
    exactly(words, 4)?;
    let call = name_at(words, 3)?;
    let t = transaction_at(words, 1)?;
    let x = object_at(words, 2)?;
    Ok(Request::Call { t, x, call })
}

#[tactic(auto, unfolding(crate::specs::Requests::would_of))]
fn would_of(words: &[&[u8]]) -> Result<Request, RequestFault>
    ensures { result ≡ would_of (map (λ w. w.now) words.now) }
{
    exactly(words, 4)?;
    let call = name_at(words, 3)?;
    let t = transaction_at(words, 1)?;
    let x = object_at(words, 2)?;
    Ok(Request::Would { t, x, call })
}

#[tactic(auto, unfolding(crate::specs::Requests::commit_request_of))]
fn commit_of(words: &[&[u8]]) -> Result<Request, RequestFault>
    ensures { result ≡ commit_request_of (map (λ w. w.now) words.now) }
{
    if words.len() == 3 {
        return keyed_commit_of(words);
    }
    plain_commit_of(words)
}

#[tactic(auto, unfolding(crate::specs::Requests::plain_commit_of))]
fn plain_commit_of(words: &[&[u8]]) -> Result<Request, RequestFault>
    ensures { result ≡ plain_commit_of (map (λ w. w.now) words.now) }
{
    exactly(words, 2)?;
    let t = transaction_at(words, 1)?;
    Ok(Request::Commit { t })
}

#[tactic(auto, unfolding(crate::specs::Requests::keyed_commit_of))]
fn keyed_commit_of(words: &[&[u8]]) -> Result<Request, RequestFault>
    ensures { result ≡ keyed_commit_of (map (λ w. w.now) words.now) }
{
    let key = key_at(words, 2)?;
    let t = transaction_at(words, 1)?;
    Ok(Request::CommitUnder { t, key })
}

#[tactic(auto, unfolding(crate::specs::Requests::abort_request_of))]
fn abort_of(words: &[&[u8]]) -> Result<Request, RequestFault>
    ensures { result ≡ abort_request_of (map (λ w. w.now) words.now) }
{
    exactly(words, 2)?;
    let t = transaction_at(words, 1)?;
    Ok(Request::Abort { t })
}

#[tactic(auto, unfolding(crate::specs::Requests::rollback_request_of))]
fn rollback_of(words: &[&[u8]]) -> Result<Request, RequestFault>
    ensures { result ≡ rollback_request_of (map (λ w. w.now) words.now) }
{
    exactly(words, 3)?;
    let t = transaction_at(words, 1)?;
    let count = number_at(words, 2)?;
    Ok(Request::Rollback { t, count })
}

#[tactic(auto, unfolding(crate::specs::Requests::extend_request_of))]
fn extend_of(words: &[&[u8]]) -> Result<Request, RequestFault>
    ensures { result ≡ extend_request_of (map (λ w. w.now) words.now) }
{
    at_least(words, 3)?;
    Ok(Request::Extend)
}

#[tactic(auto, unfolding(crate::specs::Requests::do_request_of))]
fn do_of(words: &[&[u8]]) -> Result<Request, RequestFault>
    ensures { result ≡ do_request_of (map (λ w. w.now) words.now) }
{
    if is_keyed(word(words, 1)) {
        return keyed_do_of(words);
    }
    calls_of(words, Request::Do)
}

#[tactic(auto, unfolding(crate::specs::Requests::keyed_do_of))]
fn keyed_do_of(words: &[&[u8]]) -> Result<Request, RequestFault>
    ensures { result ≡ keyed_do_of (map (λ w. w.now) words.now) }
{
    let key = key_in_front(words)?;
    has_calls(behind_verb(words))?;
    Ok(Request::DoUnder { key })
}

#[tactic(auto, unfolding(crate::specs::Requests::outcome_request_of))]
fn outcome_of(words: &[&[u8]]) -> Result<Request, RequestFault>
    ensures { result ≡ outcome_request_of (map (λ w. w.now) words.now) }
{
    exactly(words, 2)?;
    let key = key_at(words, 1)?;
    Ok(Request::Outcome { key })
}

#[tactic(auto, unfolding(crate::specs::Requests::calls_request_of))]
fn calls_of(words: &[&[u8]], request: Request) -> Result<Request, RequestFault>
    ensures { result ≡ calls_request_of (map (λ w. w.now) words.now) request }
{
    has_calls(words)?;
    Ok(request)
}

#[tactic(auto, unfolding(crate::specs::Requests::objects_request_of))]
fn objects_of(words: &[&[u8]]) -> Result<Request, RequestFault>
    ensures { result ≡ objects_request_of (map (λ w. w.now) words.now) }
{
    has_objects(words)?;
    Ok(Request::Committed)
}

#[tactic(auto, unfolding(crate::specs::Requests::kept_of))]
fn kept_of(words: &[&[u8]]) -> Result<Request, RequestFault>
    ensures { result ≡ kept_of (map (λ w. w.now) words.now) }
{
    exactly(words, 2)?;
    let x = object_at(words, 1)?;
    Ok(Request::Kept { x })
}

#[tactic(auto, unfolding(crate::specs::Requests::find_of))]
fn find_of(words: &[&[u8]]) -> Result<Request, RequestFault>
    ensures { result ≡ find_of (map (λ w. w.now) words.now) }
{
    exactly(words, 2)?;
    let name = asked_name_at(words, 1)?;
    Ok(Request::Find { name })
}

#[tactic(auto, unfolding(crate::specs::Requests::events_request_of))]
fn events_of(words: &[&[u8]]) -> Result<Request, RequestFault>
    ensures { result ≡ events_request_of (map (λ w. w.now) words.now) }
{
    exactly(words, 3)?;
    let from = number_at(words, 1)?;
    let count = number_at(words, 2)?;
    Ok(Request::Events { from, count })
}
