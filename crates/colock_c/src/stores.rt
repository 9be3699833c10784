//! Exports: the calls of a store.
//!
//! Each answers `NotHeld` where the handle holds no store. All but `Done` leave the store and what the
//! other pointers point at. A transaction, an object, a call or a number of operations that is greater than
//! any in a store is as one that isn't there.

ghost use Rattle.std.specs.Prelude.{◌≡◌, ◌≢◌, Some, None};
ghost use Rattle.serial_order.specs.declared.command.Command.TheVariants as command;
ghost use Rattle.library_calls.specs.Codes.{number};
ghost use Rattle.library_calls.specs.Holding.{store_at};
ghost use Rattle.colock_c.specs.Calls.{AbortsAll, AttemptsCalls, AttemptsNumbers, CountsOpen, DoesCommand, DoesNumbered, Ends, Foresees, ForeseesAt, IsNumbered, IsToldOf, KeepsState, Numbers, TellsAnswer};

use crate::slot::Slot;
use library_calls::attempt_calls::attempt_calls;
use library_calls::attempt_numbers::attempt_numbers;
use library_calls::{Code, ColockAnswer, ColockOutcome, call_numbers, store_calls};
use std::alloc::Global;

/// Begins a transaction, as a worker, and gives its number: `TooManyOpen`, `HistoryFull` or `NoMemory`.
#[unsafe(no_mangle)]
#[tactic(auto, using(crate::proofs::Becoming::becomes, crate::proofs::Becoming::stays))]
pub extern "C" fn colock_begin(
    alloc: Global,
    slot: &mut Slot,
    worker: u8,
    transaction: &mut u64,
) -> u32
    ensures step { DoesCommand slot.old.handle.held worker command.Begin result slot.new.handle.held }
    ensures begun { IsNumbered slot.old.handle.held result transaction.new }
    ensures rest { result ≢ 0 → transaction.new ≡ transaction.old }
{
    let Some(mut held) = slot.take_store(alloc) else {
        return Code::NotHeld.number();
    };
    let code = store_calls::begin(held.store(), worker, transaction);
    slot.put(held);
    code.number()
}

/// Calls, for a transaction, the call with this name at object x, and gives the answer: `NotOpen`,
/// `NoObject`, `NoCall`, `HistoryFull` or `NoMemory`.
#[unsafe(no_mangle)]
#[tactic(auto, using(crate::proofs::Becoming::becomes, crate::proofs::Becoming::stays))]
pub extern "C" fn colock_call(
    alloc: Global,
    slot: &mut Slot,
    worker: u8,
    transaction: u64,
    x: u32,
    name: &[u8],
    answer: &mut ColockAnswer,
) -> u32
    ensures step { DoesCommand slot.old.handle.held worker (command.Call transaction x name.now) result slot.new.handle.held }
    ensures told { IsToldOf slot.old.handle.held worker transaction x name.now result answer.new slot.new.handle.held }
    ensures rest { result ≢ 0 → answer.new ≡ answer.old }
{
    let Some(mut held) = slot.take_store(alloc) else {
        return Code::NotHeld.number();
    };
    let code = store_calls::call(held.store(), worker, transaction, x, name, answer);
    slot.put(held);
    code.number()
}

/// Calls the call with this number there, as `colock_call` the one with its name.
#[unsafe(no_mangle)]
#[tactic(auto, using(crate::proofs::Becoming::becomes, crate::proofs::Becoming::stays))]
pub extern "C" fn colock_call_op(
    alloc: Global,
    slot: &mut Slot,
    worker: u8,
    transaction: u64,
    x: u32,
    c: u64,
    answer: &mut ColockAnswer,
) -> u32
    ensures step { DoesNumbered slot.old.handle.held worker transaction x c result slot.new.handle.held }
    ensures told { TellsAnswer slot.old.handle.held worker transaction x c result answer.new slot.new.handle.held }
    ensures rest { result ≢ 0 → answer.new ≡ answer.old }
{
    let Some(mut held) = slot.take_store(alloc) else {
        return Code::NotHeld.number();
    };
    let code = store_calls::call_op(held.store(), worker, transaction, x, c, answer);
    slot.put(held);
    code.number()
}

/// The number of the call with this name at object x, which is that of its first operation: `NoObject` or `NoCall`.
#[unsafe(no_mangle)]
pub extern "C" fn colock_call_number(
    alloc: Global,
    slot: &mut Slot,
    x: u32,
    name: &[u8],
    call: &mut u64,
) -> u32
    ensures found { Numbers slot.old.handle.held x name.now result call.new }
    ensures no_store { store_at slot.old.handle.held ≡ None → result ≡ number Code.NotHeld }
    ensures reads { slot.new.handle.held ≡ slot.old.handle.held }
    ensures rest { result ≢ 0 → call.new ≡ call.old }
{
    let Some(held) = slot.take_store(alloc) else {
        return Code::NotHeld.number();
    };
    let code = call_numbers::call_number(held.stored(), x, name, call);
    slot.put(held);
    code.number()
}

/// What `colock_call` would answer now. It is no event.
#[unsafe(no_mangle)]
pub extern "C" fn colock_would(
    alloc: Global,
    slot: &mut Slot,
    transaction: u64,
    x: u32,
    name: &[u8],
    answer: &mut ColockAnswer,
) -> u32
    ensures foreseen { Foresees slot.old.handle.held transaction x name.now result answer.new }
    ensures no_store { store_at slot.old.handle.held ≡ None → result ≡ number Code.NotHeld }
    ensures reads { slot.new.handle.held ≡ slot.old.handle.held }
    ensures rest { result ≢ 0 → answer.new ≡ answer.old }
{
    let Some(held) = slot.take_store(alloc) else {
        return Code::NotHeld.number();
    };
    let code = store_calls::would(held.stored(), transaction, x, name, answer);
    slot.put(held);
    code.number()
}

/// What `colock_call_op` would answer now. It is no event.
#[unsafe(no_mangle)]
pub extern "C" fn colock_would_op(
    alloc: Global,
    slot: &mut Slot,
    transaction: u64,
    x: u32,
    c: u64,
    answer: &mut ColockAnswer,
) -> u32
    ensures foreseen { ForeseesAt slot.old.handle.held transaction x c result answer.new }
    ensures no_store { store_at slot.old.handle.held ≡ None → result ≡ number Code.NotHeld }
    ensures reads { slot.new.handle.held ≡ slot.old.handle.held }
    ensures rest { result ≢ 0 → answer.new ≡ answer.old }
{
    let Some(held) = slot.take_store(alloc) else {
        return Code::NotHeld.number();
    };
    let code = store_calls::would_op(held.stored(), transaction, x, c, answer);
    slot.put(held);
    code.number()
}

/// A whole transaction of a worker: it begins, calls at each of these objects, in their order, the call whose name is the word
/// at its place in the text, and commits; at the first call that isn't replied to it aborts in the place of what follows. The
/// operations go into the room. `BadParameter` where there are more words or fewer than objects, `NoRoom` where the room has
/// fewer places; `TooManyOpen`, `HistoryFull` or `NoMemory` where it isn't begun, and then nothing has changed.
#[unsafe(no_mangle)]
#[tactic(auto, using(crate::proofs::Becoming::becomes, crate::proofs::Becoming::stays))]
pub extern "C" fn colock_attempt(
    alloc: Global,
    slot: &mut Slot,
    worker: u8,
    objects: &[u32],
    names: &[u8],
    operations: &mut [u64],
    outcome: &mut ColockOutcome,
) -> u32
    ensures attempts { AttemptsCalls slot.old.handle.held worker objects.now names.now operations.old result operations.new outcome.new slot.new.handle.held }
    ensures rest { result ≢ 0 → (operations.new ≡ operations.old) × (outcome.new ≡ outcome.old) }
{
    let Some(mut held) = slot.take_store(alloc) else {
        return Code::NotHeld.number();
    };
    let code = attempt_calls(
        held.store(),
        alloc,
        worker,
        objects,
        names,
        operations,
        outcome,
    );
    slot.put(held);
    code.number()
}

/// A whole transaction, as `colock_attempt`, by the numbers of its calls, each at the place of its object. It takes no memory but
/// for its events and operations. Where it aborts, the first places of the room may have the operations of the calls before.
/// `BadParameter` where there are more numbers or fewer than objects.
#[unsafe(no_mangle)]
#[tactic(auto, using(crate::proofs::Becoming::becomes, crate::proofs::Becoming::stays))]
pub extern "C" fn colock_attempt_op(
    alloc: Global,
    slot: &mut Slot,
    worker: u8,
    objects: &[u32],
    calls: &[u64],
    operations: &mut [u64],
    outcome: &mut ColockOutcome,
) -> u32
    ensures attempts { AttemptsNumbers slot.old.handle.held worker objects.now calls.now operations.old result operations.new outcome.new slot.new.handle.held }
    ensures rest { result ≢ 0 → (operations.new ≡ operations.old) × (outcome.new ≡ outcome.old) }
{
    let Some(mut held) = slot.take_store(alloc) else {
        return Code::NotHeld.number();
    };
    let code = attempt_numbers(held.store(), worker, objects, calls, operations, outcome);
    slot.put(held);
    code.number()
}

/// Commits a transaction, as a worker: `NotOpen`. It never takes memory.
#[unsafe(no_mangle)]
#[tactic(auto, using(crate::proofs::Becoming::becomes, crate::proofs::Becoming::stays))]
pub extern "C" fn colock_commit(alloc: Global, slot: &mut Slot, worker: u8, transaction: u64) -> u32
    ensures { Ends slot.old.handle.held worker (command.Commit transaction) result slot.new.handle.held }
{
    let Some(mut held) = slot.take_store(alloc) else {
        return Code::NotHeld.number();
    };
    let code = store_calls::commit(held.store(), worker, transaction);
    slot.put(held);
    code.number()
}

/// Aborts a transaction, as a worker: `NotOpen`. It never takes memory.
#[unsafe(no_mangle)]
#[tactic(auto, using(crate::proofs::Becoming::becomes, crate::proofs::Becoming::stays))]
pub extern "C" fn colock_abort(alloc: Global, slot: &mut Slot, worker: u8, transaction: u64) -> u32
    ensures { Ends slot.old.handle.held worker (command.Abort transaction) result slot.new.handle.held }
{
    let Some(mut held) = slot.take_store(alloc) else {
        return Code::NotHeld.number();
    };
    let code = store_calls::abort(held.store(), worker, transaction);
    slot.put(held);
    code.number()
}

/// Strikes the last operations of a transaction, as a worker: `NotOpen`, `BadRollback`, `HistoryFull` or
/// `NoMemory`.
#[unsafe(no_mangle)]
#[tactic(auto, using(crate::proofs::Becoming::becomes, crate::proofs::Becoming::stays))]
pub extern "C" fn colock_rollback(
    alloc: Global,
    slot: &mut Slot,
    worker: u8,
    transaction: u64,
    operations: u64,
) -> u32
    ensures { DoesCommand slot.old.handle.held worker (command.Rollback transaction operations) result slot.new.handle.held }
{
    let Some(mut held) = slot.take_store(alloc) else {
        return Code::NotHeld.number();
    };
    let code = store_calls::rollback(held.store(), worker, transaction, operations);
    slot.put(held);
    code.number()
}

/// The state that is kept of object x: `NoObject`.
#[unsafe(no_mangle)]
pub extern "C" fn colock_kept(alloc: Global, slot: &mut Slot, x: u32, state: &mut u64) -> u32
    ensures kept { KeepsState slot.old.handle.held x result state.new }
    ensures no_store { store_at slot.old.handle.held ≡ None → result ≡ number Code.NotHeld }
    ensures reads { slot.new.handle.held ≡ slot.old.handle.held }
    ensures rest { result ≢ 0 → state.new ≡ state.old }
{
    let Some(held) = slot.take_store(alloc) else {
        return Code::NotHeld.number();
    };
    let code = store_calls::kept(held.stored(), x, state);
    slot.put(held);
    code.number()
}

/// How many transactions are open.
#[unsafe(no_mangle)]
pub extern "C" fn colock_open_count(alloc: Global, slot: &mut Slot, count: &mut u64) -> u32
    ensures counted { CountsOpen slot.old.handle.held result count.new }
    ensures no_store { store_at slot.old.handle.held ≡ None → result ≡ number Code.NotHeld }
    ensures reads { slot.new.handle.held ≡ slot.old.handle.held }
    ensures rest { result ≢ 0 → count.new ≡ count.old }
{
    let Some(held) = slot.take_store(alloc) else {
        return Code::NotHeld.number();
    };
    *count = u64::from(held.stored().open_count());
    slot.put(held);
    Code::Done.number()
}

/// Aborts each open transaction, in ascending order of numbers, as the worker that began it.
#[unsafe(no_mangle)]
#[tactic(auto, using(crate::proofs::Becoming::becomes, crate::proofs::Becoming::stays))]
pub extern "C" fn colock_abort_all(alloc: Global, slot: &mut Slot) -> u32
    ensures { AbortsAll slot.old.handle.held result slot.new.handle.held }
{
    let Some(mut held) = slot.take_store(alloc) else {
        return Code::NotHeld.number();
    };
    held.store().abort_all();
    slot.put(held);
    Code::Done.number()
}
