//! Exports: reads of what is committed, which hold nothing, and for which nobody waits.
//!
//! Each answers `NotHeld` where the handle holds no store. `commits` gets how many transactions have committed since
//! the store was made or began anew. All but `Done` leave what the pointers point at.

ghost use Rattle.std.specs.Prelude.{◌≡◌, ◌≢◌, None};
ghost use Rattle.library_calls.specs.Codes.{number};
ghost use Rattle.library_calls.specs.Holding.{store_at};
ghost use Rattle.colock_c.specs.Reads.{CountsCommits, Peeks, TakesSnapshot, TellsCommitted};

use crate::slot::Slot;
use library_calls::{Code, ColockAnswer, store_reads};
use std::alloc::Global;

/// What the call with this name at object x is answered to a transaction that only reads committed states: its first
/// operation that is legal there, or none. `NoObject`, `NoCall`, or `Changes` where an operation of the call may change
/// something.
#[unsafe(no_mangle)]
pub extern "C" fn colock_peek(
    alloc: Global,
    slot: &mut Slot,
    x: u32,
    name: &[u8],
    answer: &mut ColockAnswer,
    commits: &mut u64,
) -> u32
    ensures peeked { Peeks slot.old.handle.held x name.now result answer.new commits.new }
    ensures no_store { store_at slot.old.handle.held ≡ None → result ≡ number Code.NotHeld }
    ensures reads { slot.new.handle.held ≡ slot.old.handle.held }
    ensures rest { result ≢ 0 → (answer.new ≡ answer.old) × (commits.new ≡ commits.old) }
{
    let Some(held) = slot.take_store(alloc) else {
        return Code::NotHeld.number();
    };
    let code = store_reads::peek(held.stored(), x, name, answer, commits);
    slot.put(held);
    code.number()
}

/// The committed state of object x, what is left of it where all open transactions are left out: `NoObject`.
#[unsafe(no_mangle)]
pub extern "C" fn colock_committed(
    alloc: Global,
    slot: &mut Slot,
    x: u32,
    state: &mut u64,
    commits: &mut u64,
) -> u32
    ensures committed { TellsCommitted slot.old.handle.held x result state.new commits.new }
    ensures no_store { store_at slot.old.handle.held ≡ None → result ≡ number Code.NotHeld }
    ensures reads { slot.new.handle.held ≡ slot.old.handle.held }
    ensures rest { result ≢ 0 → (state.new ≡ state.old) × (commits.new ≡ commits.old) }
{
    let Some(held) = slot.take_store(alloc) else {
        return Code::NotHeld.number();
    };
    let code = store_reads::committed(held.stored(), x, state, commits);
    slot.put(held);
    code.number()
}

/// The committed states of all objects, in their order, at the first places of the room: `NoRoom` where it has fewer
/// places than there are objects. It takes no memory.
#[unsafe(no_mangle)]
pub extern "C" fn colock_snapshot(
    alloc: Global,
    slot: &mut Slot,
    states: &mut [u64],
    commits: &mut u64,
) -> u32
    ensures taken { TakesSnapshot slot.old.handle.held states.old result states.new commits.new }
    ensures no_store { store_at slot.old.handle.held ≡ None → result ≡ number Code.NotHeld }
    ensures reads { slot.new.handle.held ≡ slot.old.handle.held }
    ensures rest { result ≢ 0 → (states.new ≡ states.old) × (commits.new ≡ commits.old) }
{
    let Some(held) = slot.take_store(alloc) else {
        return Code::NotHeld.number();
    };
    let code = store_reads::snapshot(held.stored(), states, commits);
    slot.put(held);
    code.number()
}

/// How many transactions have committed.
#[unsafe(no_mangle)]
pub extern "C" fn colock_commit_count(alloc: Global, slot: &mut Slot, commits: &mut u64) -> u32
    ensures counted { CountsCommits slot.old.handle.held result commits.new }
    ensures no_store { store_at slot.old.handle.held ≡ None → result ≡ number Code.NotHeld }
    ensures reads { slot.new.handle.held ≡ slot.old.handle.held }
    ensures rest { result ≢ 0 → commits.new ≡ commits.old }
{
    let Some(held) = slot.take_store(alloc) else {
        return Code::NotHeld.number();
    };
    *commits = store_reads::commits_of(held.stored());
    slot.put(held);
    Code::Done.number()
}
