//! The calls of a store, answered by codes.

ghost use Rattle.std.specs.Prelude.{◌≡◌, ◌⊎◌, ◌≢◌, ◌<◌, ◌++◌, ℕ, List, false, length, slice_get, Some, IfNone, IfSome};
ghost use Rattle.serial_order.specs.History.{begins, summary, is_open};
ghost use Rattle.serial_order.specs.Replay.{call_at, open_count};
ghost use Rattle.serial_order.specs.declared.command.Command.TheVariants as command;
ghost use Rattle.store_laws.specs.Stored.{objects};
ghost use Rattle.library_calls.specs.Calls.{WordsAnswer, IsCommandDone, IsEnded, IsKeptStateOf, IsUnnumbered};
ghost use Rattle.library_calls.specs.Codes.{number};
ghost use Rattle.library_calls.specs.Foreseen.{IsForeseen, IsForeseenAt};

use crate::call_numbers::no_call;
use crate::code::{Code, code_of};
use crate::operations::operation_of;
use crate::words::{ColockAnswer, answer_words};
use objects::Object;
use store::Store;

/// The number of a transaction that began, as the store has it.
fn begun_at(store: &Store<Object>, transaction: u64) -> Option<u32>
    ensures same { IfSome result (λ t. t ≡ transaction) }
    ensures closed { IfNone result (is_open (summary store.now.history) transaction ≡ false) }
{
    if transaction < u64::from(store.begun()) {
        Some(transaction as u32)
    } else {
        None
    }
}

/// Begins a transaction, and gives its number.
pub fn begin(store: &mut Store<Object>, worker: u8, transaction: &mut u64) -> Code
    ensures step { IsCommandDone store.old worker command.Begin (number result) store.new }
    ensures begun { number result ≡ 0 → transaction.new ≡ begins store.old.history }
    ensures rest { number result ≢ 0 → transaction.new ≡ transaction.old }
{
    match store.begin(worker) {
        Ok(t) => {
            *transaction = u64::from(t);
            Code::Done
        }
        Err(refusal) => code_of(refusal),
    }
}

/// Calls a call by its name, and says what it is answered.
pub fn call(
    store: &mut Store<Object>,
    worker: u8,
    transaction: u64,
    x: u32,
    name: &[u8],
    answer: &mut ColockAnswer,
) -> Code
    ensures step { IsCommandDone store.old worker (command.Call transaction x name.now) (number result) store.new }
    ensures told { (c : ℕ) → call_at (slice_get (objects store.old) x) name.now ≡ Some c → WordsAnswer store.old worker transaction x c (number result) answer.new store.new }
    ensures rest { number result ≢ 0 → answer.new ≡ answer.old }
{
    let Some(t) = begun_at(store, transaction) else {
        return Code::NotOpen;
    };
    match store.call_bytes(worker, t, x, name) {
        Ok(given) => {
            *answer = answer_words(given);
            Code::Done
        }
        Err(refusal) => code_of(refusal),
    }
}

/// The same of a call by its number.
pub fn call_op(
    store: &mut Store<Object>,
    worker: u8,
    transaction: u64,
    x: u32,
    c: u64,
    answer: &mut ColockAnswer,
) -> Code
    ensures step { (name : List ℕ) → call_at (slice_get (objects store.old) x) name ≡ Some c → IsCommandDone store.old worker (command.Call transaction x name) (number result) store.new }
    ensures told { WordsAnswer store.old worker transaction x c (number result) answer.new store.new }
    ensures unnumbered { IsUnnumbered store.old transaction x c (number result) store.new }
    ensures rest { number result ≢ 0 → answer.new ≡ answer.old }
{
    let Some(t) = begun_at(store, transaction) else {
        return Code::NotOpen;
    };
    let Some(c) = operation_of(c) else {
        return no_call(store, t, x, c);
    };
    match store.call_op(worker, t, x, c) {
        Ok(given) => {
            *answer = answer_words(given);
            Code::Done
        }
        Err(refusal) => code_of(refusal),
    }
}

/// Says what a call by name would be answered.
pub fn would(
    store: &Store<Object>,
    transaction: u64,
    x: u32,
    name: &[u8],
    answer: &mut ColockAnswer,
) -> Code
    ensures foreseen { IsForeseen store.now transaction x name.now (number result) answer.new }
    ensures rest { number result ≢ 0 → answer.new ≡ answer.old }
{
    let Some(t) = begun_at(store, transaction) else {
        return Code::NotOpen;
    };
    match store.would_bytes(t, x, name) {
        Ok(given) => {
            *answer = answer_words(given);
            Code::Done
        }
        Err(refusal) => code_of(refusal),
    }
}

/// Says what a call by its number would be answered.
pub fn would_op(
    store: &Store<Object>,
    transaction: u64,
    x: u32,
    c: u64,
    answer: &mut ColockAnswer,
) -> Code
    ensures foreseen { IsForeseenAt store.now transaction x c (number result) answer.new }
    ensures rest { number result ≢ 0 → answer.new ≡ answer.old }
{
    let Some(t) = begun_at(store, transaction) else {
        return Code::NotOpen;
    };
    let Some(c) = operation_of(c) else {
        return no_call(store, t, x, c);
    };
    match store.would_op(t, x, c) {
        Ok(given) => {
            *answer = answer_words(given);
            Code::Done
        }
        Err(refusal) => code_of(refusal),
    }
}

/// Commits a transaction.
pub fn commit(store: &mut Store<Object>, worker: u8, transaction: u64) -> Code
    ensures { IsEnded store.old worker (command.Commit transaction) (number result) store.new }
{
    let Some(t) = begun_at(store, transaction) else {
        return Code::NotOpen;
    };
    match store.commit(worker, t) {
        Ok(()) => Code::Done,
        Err(refusal) => code_of(refusal),
    }
}

/// Aborts a transaction.
pub fn abort(store: &mut Store<Object>, worker: u8, transaction: u64) -> Code
    ensures { IsEnded store.old worker (command.Abort transaction) (number result) store.new }
{
    let Some(t) = begun_at(store, transaction) else {
        return Code::NotOpen;
    };
    match store.abort(worker, t) {
        Ok(()) => Code::Done,
        Err(refusal) => code_of(refusal),
    }
}

/// Strikes the last operations of a transaction.
pub fn rollback(store: &mut Store<Object>, worker: u8, transaction: u64, operations: u64) -> Code
    ensures { IsCommandDone store.old worker (command.Rollback transaction operations) (number result) store.new }
{
    let Some(t) = begun_at(store, transaction) else {
        return Code::NotOpen;
    };
    let n = struck_of(store, operations);
    match store.rollback(worker, t, n) {
        Ok(()) => Code::Done,
        Err(refusal) => code_of(refusal),
    }
}

/// How many operations a rollback of this many is of: none where no transaction has this many, which is
/// refused as well.
fn struck_of(store: &Store<Object>, operations: u64) -> u32
    ensures { (result ≡ operations) ⊎ ((result ≡ 0) × (length store.now.history < operations)) }
{
    if operations <= u64::from(store.event_count()) {
        operations as u32
    } else {
        0
    }
}

/// Gives the state that is kept of an object.
pub fn kept(store: &Store<Object>, x: u32, state: &mut u64) -> Code
    ensures kept { IsKeptStateOf store.now x (number result) state.new }
    ensures rest { number result ≢ 0 → state.new ≡ state.old }
{
    match store.kept(x) {
        Some(kept) => {
            *state = u64::from(kept);
            Code::Done
        }
        None => Code::NoObject,
    }
}
