//! The first events of an epoch into which transactions are carried.

ghost use Rattle.std.specs.Prelude.{◌≡◌, ◌≤◌, ◌<◌, ◌++◌, ◌^◌, [], ◌∷◌, map, length, true, false, IfOk, IfSome, IfNone, OnOk};
ghost use Rattle.object_trait.specs.Orders.{Pairs};
ghost use Rattle.serial_order.specs.Operations.{is_among};
ghost use Rattle.carried_runs.specs.Carried.{again_at, begins_from, carried_by, carried_of_logs, number_in};
ghost use Rattle.carried_runs.specs.Objects.{HaveShortLogs};

use object_trait::{Event, EventKind, LogEntry, Recovery};
use std::alloc::{AllocError, Global};

/// The first events of the next epoch, by worker w, into which these transactions are carried, whose numbers ascend: each of
/// them begins, and then what the logs of the objects tell of them is done again, object after object.
///
/// # Errors
///
/// Memory was refused.
pub fn carried_events<R: Recovery>(
    alloc: Global,
    objects: &[R],
    those: &[u32],
    w: u8,
) -> Result<Vec<Event>, AllocError>
    requires few_objects { length objects.now ≤ 65536 }
    requires short { HaveShortLogs (map R.meaning objects.now) }
    requires few { length those.now ≤ 65536 }
    requires ascend { Pairs (λ a b. a < b) those.now }
    ensures { IfOk result (λ events. events.items ≡ carried_by (λ _. w) those.now (carried_of_logs 0 those.now (map R.meaning objects.now))) }
{
    let mut events = begins(alloc, those, w)?;
    for (x, object) in objects.iter().enumerate() {
        add_carried(&mut events, object, x as u32, those, w)?;
    }
    Ok(events)
}

/// They begin, one after another.
///
/// # Errors
///
/// Memory was refused.
fn begins(alloc: Global, those: &[u32], w: u8) -> Result<Vec<Event>, AllocError>
    requires { length those.now ≤ 65536 }
    ensures { IfOk result (λ events. events.items ≡ begins_from (λ _. w) 0 those.now) }
{
    let mut events = Vec::with_capacity(alloc, those.len())?;
    for t in 0..those.len() {
        let kind = EventKind::Begin { t: t as u32 };
        events.push_reserved(Event { worker: w, kind });
    }
    Ok(events)
}

/// What the log of the object at x tells of them is done again.
///
/// # Errors
///
/// Memory was refused.
fn add_carried<R: Recovery>(
    events: &mut Vec<Event>,
    object: &R,
    x: u32,
    those: &[u32],
    w: u8,
) -> Result<(), AllocError>
    requires short { length (R.meaning object.now).log < 2 ^ 32 }
    requires few { length those.now ≤ 65536 }
    requires ascend { Pairs (λ a b. a < b) those.now }
    ensures { OnOk result (events.new.items ≡ events.old.items ++ again_at x (λ _. w) those.now (R.meaning object.now).log) }
{
    let mut i = 0;
    while let Some(entry) = object.entry(i) {
        add_again(events, &entry, x, those, w)?;
        i += 1;
    }
    Ok(())
}

/// An entry at x is done again, where it is an open one of these.
///
/// # Errors
///
/// Memory was refused.
fn add_again(
    events: &mut Vec<Event>,
    entry: &LogEntry,
    x: u32,
    those: &[u32],
    w: u8,
) -> Result<(), AllocError>
    requires few { length those.now ≤ 65536 }
    requires ascend { Pairs (λ a b. a < b) those.now }
    ensures { OnOk result (events.new.items ≡ events.old.items ++ again_at x (λ _. w) those.now (entry.now ∷ [])) }
{
    if entry.done {
        return Ok(());
    }
    let Some(t) = place_in(those, entry.by) else {
        return Ok(());
    };
    let k = entry.op;
    let kind = EventKind::Op { t, x, k };
    events.push(Event { worker: w, kind })?;
    Ok(())
}

/// The place of t among these, where it is one.
fn place_in(those: &[u32], t: u32) -> Option<u32>
    requires few { length those.now ≤ 65536 }
    requires ascend { Pairs (λ a b. a < b) those.now }
    ensures mine { IfSome result (λ place. (is_among those.now t ≡ true) × (place ≡ number_in those.now t)) }
    ensures other { IfNone result (is_among those.now t ≡ false) }
{
    match those.binary_search(&t) {
        Ok(place) => Some(place as u32),
        Err(_) => None,
    }
}
