//! The events of a store, in a room of the caller.

ghost use Rattle.std.specs.Prelude.{◌≡◌, ◌≢◌, ◌-◌, length, min};
ghost use Rattle.library_calls.specs.Codes.{number};
ghost use Rattle.library_calls.specs.Histories.{IsCopied, IsFilled};

use crate::code::Code;
use crate::event_words::{ColockEvent, event_words};
use object_trait::Event;
use objects::Object;
use store::Store;

/// Puts the events from a place on into a room, and says how many they are.
pub fn events(store: &Store<Object>, from: u64, room: &mut [ColockEvent], count: &mut u64) -> Code
    ensures copied { IsCopied store.now from room.old (number result) room.new count.new }
    ensures rest { number result ≢ 0 → (room.new ≡ room.old) × (count.new ≡ count.old) }
{
    let forgotten = forgotten_count(store);
    if from < forgotten {
        return Code::Forgotten;
    }
    *count = fill(store.history(), (from - forgotten) as usize, room) as u64;
    Code::Done
}

/// How many events were forgotten.
pub fn forgotten_count(store: &Store<Object>) -> u64
    ensures { result ≡ store.now.forgotten }
{
    u64::from(store.event_count()) - store.history().len() as u64
}

/// Puts the events from a place on into a room, and says how many they are.
fn fill(events: &[Event], from: usize, room: &mut [ColockEvent]) -> usize
    ensures filled { IsFilled events.now from room.old room.new }
    ensures counted { result ≡ min (length room.old) (length events.now - from) }
{
    if from > events.len() {
        return 0;
    }
    let reach = room.len().min(events.len() - from);
    for i in 0..reach {
        room[i] = event_words(&events[from + i]);
    }
    reach
}
