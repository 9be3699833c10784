//! A whole transaction in one call, by the numbers of its calls. It takes no memory but for its events and operations.

ghost use Rattle.std.specs.Prelude.{◌≡◌, ◌≢◌, ◌≤◌, length, take, drop, true, false};
ghost use Rattle.serial_order.specs.History.{summary, is_open};
ghost use Rattle.serial_order.specs.Replay.{is_history_full};
ghost use Rattle.store_laws.specs.Stored.{objects};
ghost use Rattle.attempts.specs.Made.{MakesCall, MakesCalls, EndsCalls};
ghost use Rattle.attempts.specs.Numbered.{named_call, named_calls};
ghost use Rattle.library_calls.specs.Codes.{number};
ghost use Rattle.library_calls.specs.NumberedAttempts.{IsAttemptedByNumbers, made_count, made_words};

use crate::attempt_calls::ending_words;
use crate::call_numbers::numbers_none;
use crate::code::{Code, code_of};
use crate::one_call::do_number;
use crate::operations::{number_of, operation_of};
use crate::words::ColockOutcome;
use attempts::{AttemptCall, Ending, Stop, begin_attempt, end_calls, make_call, make_call_op};
use objects::Object;
use serial_order::replays_join;
use store::Store;
use type_table::Operation;

/// Attempts the calls with these numbers at these objects, and puts the operations into a room.
pub fn attempt_numbers(
    store: &mut Store<Object>,
    worker: u8,
    xs: &[u32],
    calls: &[u64],
    room: &mut [u64],
    outcome: &mut ColockOutcome,
) -> Code
    ensures attempted { IsAttemptedByNumbers store.old worker xs.now calls.now room.old (number result) room.new outcome.new store.new }
    ensures rest { number result ≢ 0 → (room.new ≡ room.old) × (outcome.new ≡ outcome.old) }
{
    if xs.len() == 1
        && calls.len() == 1
        && !room.is_empty()
        && do_number(store, worker, xs[0], calls[0], room, outcome)
    {
        return Code::Done;
    }
    attempt_each(store, worker, xs, calls, room, outcome)
}

/// The same of any calls.
fn attempt_each(
    store: &mut Store<Object>,
    worker: u8,
    xs: &[u32],
    calls: &[u64],
    room: &mut [u64],
    outcome: &mut ColockOutcome,
) -> Code
    ensures attempted { IsAttemptedByNumbers store.old worker xs.now calls.now room.old (number result) room.new outcome.new store.new }
    ensures rest { number result ≢ 0 → (room.new ≡ room.old) × (outcome.new ≡ outcome.old) }
{
    replays_join();
    if calls.len() != xs.len() {
        return Code::BadParameter;
    }
    if room.len() < xs.len() {
        return Code::NoRoom;
    }
    match begin_attempt(store, worker, xs.len()) {
        Ok(t) => {
            *outcome = made_words(transact(store, worker, t, xs, calls, room));
            Code::Done
        }
        Err(refusal) => code_of(refusal),
    }
}

/// Makes the calls of transaction t, which began, and ends it.
///
/// # Errors
///
/// The call at which they stopped.
fn transact(
    store: &mut Store<Object>,
    w: u8,
    t: u32,
    xs: &[u32],
    calls: &[u64],
    room: &mut [u64],
) -> Result<(), Stop>
    requires going { is_open (summary store.old.history) t ≡ true }
    requires room { is_history_full store.old.limits store.old.history (length xs.now) ≡ false }
    requires as_many { length calls.now ≡ length xs.now }
    requires places { length xs.now ≤ length room.old }
    ensures ended { EndsCalls store.old w t (named_calls (objects store.old) xs.now calls.now) (take (made_count (length xs.now) result) room.new) result store.new }
    ensures rest { drop (made_count (length xs.now) result) room.new ≡ drop (made_count (length xs.now) result) room.old }
{
    let made = make_numbered(store, w, t, xs, calls, room);
    end_calls(store, w, t, made)
}

/// Makes these calls of transaction t, and puts the operation of each into the room as it comes.
///
/// # Errors
///
/// The first call that isn't replied to. None is made behind it.
fn make_numbered(
    store: &mut Store<Object>,
    w: u8,
    t: u32,
    xs: &[u32],
    calls: &[u64],
    room: &mut [u64],
) -> Result<(), Stop>
    requires going { is_open (summary store.old.history) t ≡ true }
    requires room { is_history_full store.old.limits store.old.history (length xs.now) ≡ false }
    requires as_many { length calls.now ≡ length xs.now }
    requires places { length xs.now ≤ length room.old }
    ensures made { MakesCalls store.old w t (named_calls (objects store.old) xs.now calls.now) (take (made_count (length xs.now) result) room.new) result store.new }
    ensures rest { drop (made_count (length xs.now) result) room.new ≡ drop (made_count (length xs.now) result) room.old }
{
    replays_join();
    for at in 0..xs.len() {
        match make_number(store, w, t, xs[at], calls[at]) {
            Ok(k) => room[at] = number_of(k),
            Err(how) => return Err(Stop { at, how }),
        }
    }
    Ok(())
}

/// Makes the call with this number of transaction t at an object: the operation of its reply.
///
/// # Errors
///
/// How it isn't replied to.
fn make_number(
    store: &mut Store<Object>,
    w: u8,
    t: u32,
    x: u32,
    c: u64,
) -> Result<Operation, Ending>
    requires going { is_open (summary store.old.history) t ≡ true }
    requires room { is_history_full store.old.limits store.old.history 1 ≡ false }
    ensures { MakesCall store.old w t (named_call (objects store.old) x c) result store.new }
{
    match operation_of(c) {
        Some(c) => make_call_op(store, w, t, x, c),
        None => {
            numbers_none(store, x, c);
            make_call(store, w, t, &AttemptCall { at: x, name: b"" })
        }
    }
}

/// What came of calls that were made, in words.
fn made_words(made: Result<(), Stop>) -> ColockOutcome
    ensures { result ≡ made_words made }
{
    match made {
        Ok(()) => ColockOutcome {
            kind: 0,
            at: 0,
            number: 0,
        },
        Err(Stop { at, how }) => ending_words(at, how),
    }
}
