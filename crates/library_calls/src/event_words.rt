//! What crosses to C and from C of events.

ghost use Rattle.std.specs.Prelude.{◌≡◌, Some, true, option_map};
ghost use Rattle.object_trait.specs.declared.event.Event.{Event as EventValue};
ghost use Rattle.object_trait.specs.declared.event.EventKind.TheVariants as kinds;
ghost use Rattle.library_calls.specs.EventWords.{are_numbers, event_at, event_words, happened_at, place_at, HasNumbers};
ghost use Rattle.library_calls.specs.Operations.{operation_by_number};

use crate::operations::{number_of, operation_of};
use object_trait::{Event, EventKind};

/// An event. `kind` is its number in the order of `EventKind`; `op` the number of its operation, or the place
/// of its call's first one; `other` the transaction that a busy call waits for, or the number of operations
/// that were rolled back. What its kind doesn't have is 0, and isn't read. `reserved` is 0, and isn't read:
/// it fills the last word.
#[repr(C)]
#[derive(Clone, Copy)]
pub struct ColockEvent {
    pub transaction: u64,
    pub other: u64,
    pub op: u64,
    pub object: u32,
    pub kind: u32,
    pub worker: u32,
    pub reserved: u32,
}

/// The words of an event with these numbers.
fn with_numbers(
    worker: u8,
    kind: u32,
    transaction: u32,
    object: u32,
    op: u64,
    other: u32,
) -> ColockEvent
    ensures { result ≡ record { transaction = transaction; other = other; op = op; object = object; kind = kind; worker = worker; reserved = 0 } }
{
    ColockEvent {
        transaction: u64::from(transaction),
        other: u64::from(other),
        op,
        object,
        kind,
        worker: u32::from(worker),
        reserved: 0,
    }
}

pub(crate) fn event_words(event: &Event) -> ColockEvent
    ensures { result ≡ event_words event.now }
{
    let w = event.worker;
    match event.kind {
        EventKind::Begin { t } => with_numbers(w, 0, t, 0, 0, 0),
        EventKind::Op { t, x, k } => with_numbers(w, 1, t, x, number_of(k), 0),
        EventKind::Busy { c, t, x, u } => with_numbers(w, 2, t, x, u64::from(c), u),
        EventKind::None { t, x, c } => with_numbers(w, 3, t, x, u64::from(c), 0),
        EventKind::Commit { t } => with_numbers(w, 4, t, 0, 0, 0),
        EventKind::Abort { t } => with_numbers(w, 5, t, 0, 0, 0),
        EventKind::Rollback { t, n } => with_numbers(w, 6, t, 0, 0, n),
    }
}

/// The event with these words: None where no kind has its number, or a number is greater than those of
/// events are, or than that of any operation or place.
pub(crate) fn event_at(words: ColockEvent) -> Option<Event>
    ensures { result ≡ event_at words }
{
    if !are_numbers(words) {
        return None;
    }
    let kind = happened_at(words)?;
    Some(Event {
        worker: words.worker as u8,
        kind,
    })
}

/// Whether the numbers are as small as those of events.
fn are_numbers(words: ColockEvent) -> bool
    ensures { result ≡ are_numbers words }
{
    words.transaction <= 4_294_967_295 && words.other <= 4_294_967_295 && words.worker <= 255
}

/// What happened, by words of such numbers.
fn happened_at(words: ColockEvent) -> Option<EventKind>
    requires { are_numbers words ≡ true }
    ensures { result ≡ happened_at words }
{
    let t = words.transaction as u32;
    let other = words.other as u32;
    let x = words.object;
    match words.kind {
        0 => Some(EventKind::Begin { t }),
        1 => executed_at(t, x, words.op),
        2 => busy_at(words.op, t, x, other),
        3 => none_at(t, x, words.op),
        4 => Some(EventKind::Commit { t }),
        5 => Some(EventKind::Abort { t }),
        6 => Some(EventKind::Rollback { t, n: other }),
        _ => None,
    }
}

/// An operation with this number was executed.
fn executed_at(t: u32, x: u32, op: u64) -> Option<EventKind>
    ensures { result ≡ option_map (λ k. kinds.Op k t x) (operation_by_number op) }
{
    let k = operation_of(op)?;
    Some(EventKind::Op { t, x, k })
}

/// The place with a number: None above the last.
fn place_at(op: u64) -> Option<u8>
    ensures { result ≡ place_at op }
{
    u8::try_from(op).ok()
}

/// A call whose first operation has this place waits.
fn busy_at(op: u64, t: u32, x: u32, u: u32) -> Option<EventKind>
    ensures { result ≡ option_map (λ c. kinds.Busy c t x u) (place_at op) }
{
    let c = place_at(op)?;
    Some(EventKind::Busy { c, t, x, u })
}

/// No operation of a call whose first one has this place was legal.
fn none_at(t: u32, x: u32, op: u64) -> Option<EventKind>
    ensures { result ≡ option_map (kinds.None t x) (place_at op) }
{
    let c = place_at(op)?;
    Some(EventKind::None { t, x, c })
}

/// The words of an event are those of no other: it is read of them again.
#[tactic(auto, using(crate::proofs::ReadAgain::read_again))]
pub fn events_are_read_again()
    ensures { (e : EventValue) → HasNumbers e → event_at (event_words e) ≡ Some e }
{}
