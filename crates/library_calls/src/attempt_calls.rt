//! A whole transaction in one call, answered by a code.

ghost use Rattle.std.specs.Prelude.{◌≡◌, ◌≢◌, ◌≤◌, ◌++◌, length, drop, map, zip, IfOk};
ghost use Rattle.attempts.specs.Commands.{asked_calls};
ghost use Rattle.library_calls.specs.Attempts.{FitsRoom, IsAttempted, attempt_code, attempt_words, ending_words, filled_room};
ghost use Rattle.library_calls.specs.Codes.{number};

use crate::code::{Code, code_of};
use crate::one_call::{do_name, is_word};
use crate::operations::number_of;
use crate::parameters::words_of;
use crate::words::ColockOutcome;
use attempts::{Attempt, AttemptCall, Ending, attempt};
use objects::Object;
use std::alloc::{AllocError, Global};
use store::Store;
use type_table::Operation;

/// Attempts the calls of these objects and names, and puts the operations into a room.
pub fn attempt_calls(
    store: &mut Store<Object>,
    alloc: Global,
    worker: u8,
    xs: &[u32],
    names: &[u8],
    room: &mut [u64],
    outcome: &mut ColockOutcome,
) -> Code
    ensures attempted { IsAttempted store.old worker xs.now names.now room.old (number result) room.new outcome.new store.new }
    ensures rest { number result ≢ 0 → (room.new ≡ room.old) × (outcome.new ≡ outcome.old) }
{
    if xs.len() == 1
        && !room.is_empty()
        && is_word(names)
        && do_name(store, worker, xs[0], names, room, outcome)
    {
        return Code::Done;
    }
    attempt_words(store, alloc, worker, xs, names, room, outcome)
}

/// The same of any calls.
fn attempt_words(
    store: &mut Store<Object>,
    alloc: Global,
    worker: u8,
    xs: &[u32],
    names: &[u8],
    room: &mut [u64],
    outcome: &mut ColockOutcome,
) -> Code
    ensures attempted { IsAttempted store.old worker xs.now names.now room.old (number result) room.new outcome.new store.new }
    ensures rest { number result ≢ 0 → (room.new ≡ room.old) × (outcome.new ≡ outcome.old) }
{
    let Ok(words) = words_of(alloc, names) else {
        return Code::NoMemory;
    };
    if words.len() != xs.len() {
        return Code::BadParameter;
    }
    if room.len() < xs.len() {
        return Code::NoRoom;
    }
    let Ok(calls) = calls_of(alloc, xs, &words) else {
        return Code::NoMemory;
    };
    tell(attempt(store, alloc, worker, &calls), room, outcome)
}

/// The calls of these objects and names, in pairs.
fn calls_of<'a>(
    alloc: Global,
    xs: &[u32],
    words: &[&'a [u8]],
) -> Result<Vec<AttemptCall<'a>>, AllocError>
    ensures { IfOk result (λ calls. asked_calls calls.items ≡ zip xs.now (map (λ w. w.now) words.now)) }
{
    let mut calls = Vec::with_capacity(alloc, xs.len())?;
    for (at, name) in xs.iter().zip(words) {
        calls.push(AttemptCall { at: *at, name })?;
    }
    Ok(calls)
}

/// Tells what came of an attempt, and its operations, for which there is room.
fn tell(came: Attempt, room: &mut [u64], outcome: &mut ColockOutcome) -> Code
    requires { FitsRoom came room.old }
    ensures code { result ≡ attempt_code came }
    ensures operations { room.new ≡ filled_room came room.old }
    ensures told { number result ≡ 0 → outcome.new ≡ attempt_words came }
    ensures rest { number result ≢ 0 → (room.new ≡ room.old) × (outcome.new ≡ outcome.old) }
{
    match came {
        Attempt::Done(operations) => {
            fill(&operations, room);
            *outcome = ColockOutcome {
                kind: 0,
                at: 0,
                number: 0,
            };
            Code::Done
        }
        Attempt::Ended { at, how } => {
            *outcome = ending_words(at, how);
            Code::Done
        }
        Attempt::NotBegun(refusal) => code_of(refusal),
    }
}

/// How the call at a place ended an attempt, in words.
pub(crate) fn ending_words(at: usize, how: Ending) -> ColockOutcome
    ensures { result ≡ ending_words at how }
{
    let at = at as u64;
    match how {
        Ending::Busy(u) => ColockOutcome {
            kind: 1,
            at,
            number: u64::from(u),
        },
        Ending::None => ColockOutcome {
            kind: 2,
            at,
            number: 0,
        },
        Ending::Refused(refusal) => ColockOutcome {
            kind: 3,
            at,
            number: u64::from(code_of(refusal).number()),
        },
    }
}

/// Puts operations into a room that has places for them.
fn fill(operations: &[Operation], room: &mut [u64])
    requires { length operations.now ≤ length room.old }
    ensures { room.new ≡ operations.now ++ drop (length operations.now) room.old }
{
    for i in 0..operations.len() {
        room[i] = number_of(operations[i]);
    }
}
