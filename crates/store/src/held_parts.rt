//! What a store holds beside its objects from the beginning, where it may be made of these.

ghost use Rattle.std.specs.Prelude.{◌≡◌, ◌↔◌, ◌≤◌, true, map, length, IfOk, IfErr};
ghost use Rattle.serial_order.specs.Laws.{AreChecked};
ghost use Rattle.store_laws.specs.Stored.{types_of};
ghost use Rattle.store.specs.Ends.{AreFresh, MayBegin, RefusesNew};
ghost use Rattle.store.specs.Whole.{HasCalls};

use crate::refusals::NewRefusal;
use object_calls::{CallTable, PlaceCounts};
use object_trait::Recovery;
use std::alloc::{AllocError, Global};
use store_limits::Limits;

/// The calls of each object's type, and room for the place of each object.
#[derive(Drop)]
pub(crate) struct HeldParts {
    pub(crate) calls: Vec<CallTable>,
    pub(crate) counts: PlaceCounts,
}

/// What is held for these objects, where a store may be made of them, with a limit of at most `greatest` events.
///
/// # Errors
///
/// `NoObjects`, `TooManyObjects`, `NotFresh`, `BadMax` or `NoMemory`, the first that holds.
pub(crate) fn held_for<R: Recovery>(
    alloc: Global,
    objects: &Vec<R>,
    limits: Limits,
    greatest: u32,
) -> Result<HeldParts, NewRefusal>
    ensures may { IfOk result (λ held. MayBegin greatest (map R.meaning objects.now.items) limits) }
    ensures checked { IfOk result (λ held. AreChecked (types_of (map R.meaning objects.now.items))) }
    ensures calls { IfOk result (λ held. HasCalls (types_of (map R.meaning objects.now.items)) held.calls.items) }
    ensures placed { IfOk result (λ held. length objects.now.items ≤ held.counts) }
    ensures refused { IfErr result (λ r. RefusesNew greatest (map R.meaning objects.now.items) limits r) }
{
    if objects.is_empty() {
        return Err(NewRefusal::NoObjects);
    }
    if objects.len() > limits.objects as usize {
        return Err(NewRefusal::TooManyObjects);
    }
    if !are_fresh(objects) {
        return Err(NewRefusal::NotFresh);
    }
    if !limits.are_within(greatest) {
        return Err(NewRefusal::BadMax);
    }
    let Ok(calls) = calls_of(alloc, objects) else {
        return Err(NewRefusal::NoMemory);
    };
    let Ok(counts) = PlaceCounts::new(alloc, objects.len()) else {
        return Err(NewRefusal::NoMemory);
    };
    Ok(HeldParts { calls, counts })
}

/// Whether each object is as it was made.
pub(crate) fn are_fresh<R: Recovery>(objects: &Vec<R>) -> bool
    ensures { (result ≡ true) ↔ AreFresh (map R.meaning objects.now.items) }
{
    for object in objects {
        if !object.is_fresh() {
            return false;
        }
    }
    true
}

/// The calls of each object's type. Objects of one type share them.
fn calls_of<R: Recovery>(alloc: Global, objects: &Vec<R>) -> Result<Vec<CallTable>, AllocError>
    ensures calls { IfOk result (λ calls. HasCalls (types_of (map R.meaning objects.now.items)) calls.items) }
    ensures checked { IfOk result (λ calls. AreChecked (types_of (map R.meaning objects.now.items))) }
{
    let mut known: Vec<CallTable> = Vec::new(alloc);
    let mut calls: Vec<CallTable> = Vec::with_capacity(alloc, objects.len())?;
    for object in objects {
        let its = CallTable::new(alloc, object.declared())?;
        let shared = shared_with(&mut known, its)?;
        calls.push_reserved(shared);
    }
    Ok(calls)
}

/// The most types whose calls are looked through for those of one more object.
const MOST_KNOWN: usize = 64;

/// The same calls, held once with the known table that has them, where there is one; else they are known from
/// now on, where there is room.
fn shared_with(known: &mut Vec<CallTable>, its: CallTable) -> Result<CallTable, AllocError>
    ensures { IfOk result (λ shared. shared ≡ its) }
{
    if let Some(shared) = known.iter().find(|table| table.has_those_of(&its)) {
        return shared.share();
    }
    if known.len() < MOST_KNOWN {
        known.push(its.share()?)?;
    }
    Ok(its)
}
