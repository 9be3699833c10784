//! Exports: the events of a store, oldest first, counted from 0 since it began.
//!
//! Each answers `NotHeld` where the handle holds no store.

ghost use Rattle.std.specs.Prelude.{◌≡◌, ◌≢◌, Some, None};
ghost use Rattle.library_calls.specs.Codes.{number};
ghost use Rattle.library_calls.specs.Holding.{store_at};
ghost use Rattle.colock_c.specs.Histories.{Copies, CountsEvents, FollowsWords, Forgets};

use crate::slot::Slot;
use library_calls::made_events::follow_words;
use library_calls::{Code, ColockEvent, event_rooms};
use std::alloc::Global;

/// Copies the events from place `from` on into the room, as many as there are and as it has places for;
/// `count` gets their number. `Forgotten` where some event from there on was forgotten.
#[unsafe(no_mangle)]
pub extern "C" fn colock_events(
    alloc: Global,
    slot: &mut Slot,
    from: u64,
    room: &mut [ColockEvent],
    count: &mut u64,
) -> u32
    ensures copied { Copies slot.old.handle.held from room.old result room.new count.new }
    ensures no_store { store_at slot.old.handle.held ≡ None → result ≡ number Code.NotHeld }
    ensures reads { slot.new.handle.held ≡ slot.old.handle.held }
    ensures rest { result ≢ 0 → (room.new ≡ room.old) × (count.new ≡ count.old) }
{
    let Some(held) = slot.take_store(alloc) else {
        return Code::NotHeld.number();
    };
    let code = event_rooms::events(held.stored(), from, room, count);
    slot.put(held);
    code.number()
}

/// How many events there were, and how many of the first of them were forgotten.
#[unsafe(no_mangle)]
pub extern "C" fn colock_event_count(
    alloc: Global,
    slot: &mut Slot,
    count: &mut u64,
    forgotten: &mut u64,
) -> u32
    ensures counted { CountsEvents slot.old.handle.held result count.new forgotten.new }
    ensures no_store { store_at slot.old.handle.held ≡ None → result ≡ number Code.NotHeld }
    ensures reads { slot.new.handle.held ≡ slot.old.handle.held }
    ensures rest { result ≢ 0 → (count.new ≡ count.old) × (forgotten.new ≡ forgotten.old) }
{
    let Some(held) = slot.take_store(alloc) else {
        return Code::NotHeld.number();
    };
    *count = u64::from(held.stored().event_count());
    *forgotten = event_rooms::forgotten_count(held.stored());
    slot.put(held);
    Code::Done.number()
}

/// Forgets the first events, this many of those that are in memory, or all of them. It takes no memory.
#[unsafe(no_mangle)]
#[tactic(auto, using(crate::proofs::Becoming::becomes, crate::proofs::Becoming::stays))]
pub extern "C" fn colock_forget(alloc: Global, slot: &mut Slot, events: u64) -> u32
    ensures { Forgets slot.old.handle.held events result slot.new.handle.held }
{
    let Some(mut held) = slot.take_store(alloc) else {
        return Code::NotHeld.number();
    };
    held.store().forget(events as usize);
    slot.put(held);
    Code::Done.number()
}

/// Makes these events again, one after another, each as the worker that made it; `made` gets how many were
/// made. `NotMade` or `NoMemory` at the next: those before it are made.
#[unsafe(no_mangle)]
#[tactic(auto, using(crate::proofs::Becoming::becomes, crate::proofs::Becoming::stays))]
pub extern "C" fn colock_follow(
    alloc: Global,
    slot: &mut Slot,
    events: &[ColockEvent],
    made: &mut u64,
) -> u32
    ensures follows { FollowsWords slot.old.handle.held events.now result made.new slot.new.handle.held }
    ensures no_store { store_at slot.old.handle.held ≡ None → made.new ≡ made.old }
{
    let Some(mut held) = slot.take_store(alloc) else {
        return Code::NotHeld.number();
    };
    let code = follow_words(held.store(), events, made);
    slot.put(held);
    code.number()
}
