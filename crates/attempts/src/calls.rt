//! The calls of an open transaction, one after another.

ghost use Rattle.std.specs.Prelude.{◌≡◌, ◌≤◌, [], length, true, false, vec_capacity};
ghost use Rattle.serial_order.specs.History.{summary, is_open};
ghost use Rattle.serial_order.specs.Replay.{is_history_full};
ghost use Rattle.store_laws.specs.Stored.{objects};
ghost use Rattle.attempts.specs.Commands.{asked_call, asked_calls};
ghost use Rattle.attempts.specs.Made.{replied, reply_to, MakesCall, MakesCalls};
ghost use Rattle.attempts.specs.Numbered.{named_call};

use crate::outcome::{AttemptCall, Ending, Stop};
use object_trait::Recovery;
use serial_order::{Refusal, replays_join, summary_after};
use store::{Answer, Store};
use type_table::Operation;

/// Makes these calls of transaction t, as worker w, and notes the operation of each.
///
/// # Errors
///
/// The first call that isn't replied to. None is made behind it.
pub(crate) fn make_calls<R: Recovery>(
    store: &mut Store<R>,
    w: u8,
    t: u32,
    calls: &[AttemptCall],
    operations: &mut Vec<Operation>,
) -> Result<(), Stop>
    requires going { is_open (summary store.old.history) t ≡ true }
    requires room { is_history_full store.old.limits store.old.history (length calls.now) ≡ false }
    requires none_yet { operations.old.items ≡ [] }
    requires places { length calls.now ≤ vec_capacity operations.old }
    ensures { MakesCalls store.old w t (asked_calls calls.now) operations.new.items result store.new }
{
    replays_join();
    for at in 0..calls.len() {
        match make_call(store, w, t, &calls[at]) {
            Ok(k) => operations.push_reserved(k),
            Err(how) => return Err(Stop { at, how }),
        }
    }
    Ok(())
}

/// Makes a call of transaction t, as worker w: the operation of its reply.
///
/// # Errors
///
/// How it isn't replied to.
pub fn make_call<R: Recovery>(
    store: &mut Store<R>,
    w: u8,
    t: u32,
    call: &AttemptCall,
) -> Result<Operation, Ending>
    requires going { is_open (summary store.old.history) t ≡ true }
    requires room { is_history_full store.old.limits store.old.history 1 ≡ false }
    ensures { MakesCall store.old w t (asked_call call.now) result store.new }
{
    summary_after();
    reply_to(store.call_bytes(w, t, call.at, call.name))
}

/// Makes the call with this number at object x of transaction t, as `make_call` the one with its name.
///
/// # Errors
///
/// As `make_call`. Where no call there has this number it is refused as one with an empty name.
#[inline(always)]
pub fn make_call_op<R: Recovery>(
    store: &mut Store<R>,
    w: u8,
    t: u32,
    x: u32,
    c: Operation,
) -> Result<Operation, Ending>
    requires going { is_open (summary store.old.history) t ≡ true }
    requires room { is_history_full store.old.limits store.old.history 1 ≡ false }
    ensures { MakesCall store.old w t (named_call (objects store.old) x c) result store.new }
{
    summary_after();
    reply_to(store.call_op(w, t, x, c))
}

/// The operation of a reply to a call.
///
/// # Errors
///
/// How there is none.
fn reply_to(came: Result<Answer, Refusal>) -> Result<Operation, Ending>
    ensures { result ≡ reply_to came }
{
    match came {
        Ok(answer) => replied(answer),
        Err(refusal) => Err(Ending::Refused(refusal)),
    }
}

/// The operation of a reply.
///
/// # Errors
///
/// How there is none.
fn replied(answer: Answer) -> Result<Operation, Ending>
    ensures { result ≡ replied answer }
{
    match answer {
        Answer::Reply(k) => Ok(k),
        Answer::Busy(u) => Err(Ending::Busy(u)),
        Answer::None => Err(Ending::None),
    }
}
