//! An attempt: a transaction from its begin to its end.

ghost use Rattle.std.specs.Prelude.{◌≡◌, ℕ, ◌<◌, ◌≤◌, ◌+◌, List, [], length, true, false, None, IfOk, IfErr, IfSome, OnOk, vec_capacity};
ghost use Rattle.serial_order.specs.History.{begins, summary, is_open};
ghost use Rattle.serial_order.specs.Replay.{is_history_full};
ghost use Rattle.store_laws.specs.Stored.{Stored};
ghost use Rattle.attempts.specs.Commands.{CallAt, asked_calls, attempt_commands, is_memory_refused_at, commands_replayed};
ghost use Rattle.attempts.specs.Answers.{HasAttemptRoom, IsNotBegunFor, AttemptAnswers};
ghost use Rattle.attempts.specs.Made.{HasBegun, MakesCalls, EndsCalls, Transacts};

use crate::calls::make_calls;
use crate::one_call::do_only;
use crate::outcome::{Attempt, AttemptCall, Stop};
use object_trait::Recovery;
use serial_order::{Refusal, opens_after, replays_join, summary_after, transactions_in_run};
use std::alloc::Global;
use store::Store;
use type_table::Operation;

/// Begins a transaction, as worker w, makes these calls in their order, and commits. At the first call that isn't
/// replied to it aborts in the place of what follows.
///
/// Room for all its events is made before the first one: where there is none, no transaction begins, and nothing
/// has changed. What an operation itself takes may still be refused at its call, which then ends the attempt.
pub fn attempt<R: Recovery>(
    store: &mut Store<R>,
    alloc: Global,
    w: u8,
    calls: &[AttemptCall],
) -> Attempt
    ensures replays { store.new ≡ commands_replayed store.old (is_memory_refused_at result) w (attempt_commands (begins store.old.history) (asked_calls calls.now) result) }
    ensures answers { AttemptAnswers store.old w (asked_calls calls.now) result store.new }
{
    let mut operations = match room_for(store, alloc, calls.len()) {
        Ok(operations) => operations,
        Err(refusal) => return Attempt::NotBegun(refusal),
    };
    match do_only(store, w, calls) {
        Some(k) => {
            operations.push_reserved(k);
            Attempt::Done(operations)
        }
        None => attempt_in_room(store, w, calls, operations),
    }
}

/// Begins a transaction, makes these calls, and ends it, where there is room for their events and operations.
fn attempt_in_room<R: Recovery>(
    store: &mut Store<R>,
    w: u8,
    calls: &[AttemptCall],
    operations: Vec<Operation>,
) -> Attempt
    requires room { HasAttemptRoom store.old (length calls.now) }
    requires none_yet { operations.items ≡ [] }
    requires places { length calls.now ≤ vec_capacity operations }
    ensures replays { store.new ≡ commands_replayed store.old (is_memory_refused_at result) w (attempt_commands (begins store.old.history) (asked_calls calls.now) result) }
    ensures answers { AttemptAnswers store.old w (asked_calls calls.now) result store.new }
{
    replays_join();
    match begin_in_room(store, w) {
        Ok(t) => transact(store, w, t, calls, operations),
        Err(refusal) => Attempt::NotBegun(refusal),
    }
}

/// Makes room for the events of an attempt of this many calls, and for their operations.
///
/// # Errors
///
/// `TooManyOpen`, `HistoryFull` or `NoMemory`, the first that holds.
fn room_for<R: Recovery>(
    store: &mut Store<R>,
    alloc: Global,
    calls: usize,
) -> Result<Vec<Operation>, Refusal>
    ensures same { store.new ≡ store.old }
    ensures room { IfOk result (λ v. HasAttemptRoom store.old calls) }
    ensures places { IfOk result (λ v. (v.items ≡ []) × (calls ≤ vec_capacity v)) }
    ensures refused { IfErr result (IsNotBegunFor store.old calls) }
{
    make_event_room(store, calls)?;
    match Vec::with_capacity(alloc, calls) {
        Ok(operations) => Ok(operations),
        Err(_) => Err(Refusal::NoMemory),
    }
}

/// Makes room for the events of an attempt of this many calls.
///
/// # Errors
///
/// `TooManyOpen`, `HistoryFull` or `NoMemory`, the first that holds.
fn make_event_room<R: Recovery>(store: &mut Store<R>, calls: usize) -> Result<(), Refusal>
    ensures same { store.new ≡ store.old }
    ensures room { OnOk result (HasAttemptRoom store.old calls) }
    ensures refused { IfErr result (IsNotBegunFor store.old calls) }
{
    let limits = store.limits();
    if store.open_count() >= limits.open {
        return Err(Refusal::TooManyOpen);
    }
    let Some(events) = events_of(calls, limits.events) else {
        return Err(Refusal::HistoryFull);
    };
    store.make_room(events)
}

/// How many events an attempt of this many calls has at most, where no more than `most` are allowed.
fn events_of(calls: usize, most: u32) -> Option<u32>
    ensures events { IfSome result (λ n. n ≡ calls + 2) }
    ensures many { result ≡ None → most < calls + 2 }
{
    if most < 2 || calls > most as usize - 2 {
        return None;
    }
    Some(calls as u32 + 2)
}

/// Makes room for the events of an attempt of this many calls, and begins its transaction, as worker w.
///
/// # Errors
///
/// `TooManyOpen`, `HistoryFull` or `NoMemory`, the first that holds, and the store is as it was.
pub fn begin_attempt<R: Recovery>(store: &mut Store<R>, w: u8, calls: usize) -> Result<u32, Refusal>
    ensures begun { IfOk result (λ t. HasBegun store.old w t calls store.new) }
    ensures refused { IfErr result (λ r. IsNotBegunFor store.old calls r × (store.new ≡ store.old)) }
{
    make_event_room(store, calls)?;
    begin_in_room(store, w)
}

/// Begins the transaction of an attempt, as worker w, for whose events there is room.
///
/// # Errors
///
/// `NoMemory`, and the store is as it was.
fn begin_in_room<R: Recovery>(store: &mut Store<R>, w: u8) -> Result<u32, Refusal>
    ensures begun { (calls : ℕ) → HasAttemptRoom store.old calls → IfOk result (λ t. HasBegun store.old w t calls store.new) }
    ensures refused { (calls : ℕ) → HasAttemptRoom store.old calls → IfErr result (λ r. IsNotBegunFor store.old calls r × (store.new ≡ store.old)) }
{
    summary_after();
    transactions_in_run();
    opens_after();
    store.history();
    store.begin(w)
}

/// Makes the calls of transaction t, which began, and ends it.
fn transact<R: Recovery>(
    store: &mut Store<R>,
    w: u8,
    t: u32,
    calls: &[AttemptCall],
    mut operations: Vec<Operation>,
) -> Attempt
    requires going { is_open (summary store.old.history) t ≡ true }
    requires room { is_history_full store.old.limits store.old.history (length calls.now) ≡ false }
    requires none_yet { operations.items ≡ [] }
    requires places { length calls.now ≤ vec_capacity operations }
    ensures { Transacts store.old w t (asked_calls calls.now) result store.new }
{
    let made = make_calls(store, w, t, calls, &mut operations);
    match end_calls(store, w, t, made) {
        Ok(()) => Attempt::Done(operations),
        Err(Stop { at, how }) => Attempt::Ended { at, how },
    }
}

/// Ends transaction t, as worker w, whose calls were made: it commits. Or it aborts, where they were stopped.
///
/// # Errors
///
/// The call at which they were.
pub fn end_calls<R: Recovery>(
    store: &mut Store<R>,
    w: u8,
    t: u32,
    made: Result<(), Stop>,
) -> Result<(), Stop>
    ensures same { result ≡ made }
    ensures ends { (s : Stored) (calls : List CallAt) (ks : List ℕ) → MakesCalls s w t calls ks made store.old → EndsCalls s w t calls ks result store.new }
{
    replays_join();
    // t is open, so its end isn't refused
    match made {
        Ok(()) => {
            let _ = store.commit(w, t);
            Ok(())
        }
        Err(stop) => {
            let _ = store.abort(w, t);
            Err(stop)
        }
    }
}
