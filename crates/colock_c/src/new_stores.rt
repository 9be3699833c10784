//! Exports: a store is begun, gets its objects, and is opened.

ghost use Rattle.std.specs.Prelude.{◌≡◌, ◌⊎◌, [], List, IsSome, None, Some};
ghost use Rattle.table_checker.specs.Checked.{Checked};
ghost use Rattle.object_trait.specs.Meaning.{Meaning};
ghost use Rattle.library_calls.specs.Codes.{number};
ghost use Rattle.library_calls.specs.Holding.{objects_at, type_at};
ghost use Rattle.store_limits.specs.Standard.{standard_with};
ghost use Rattle.library_calls.specs.Making.{AddsObject, MakesStore, limits_of};

use crate::held_types::hold;
use crate::slot::Slot;
use library_calls::{Code, Held, store_objects};
use std::alloc::Global;
use store_limits::Limits;

/// The beginning of a store, behind a handle that holds nothing: no object yet. `InUse` or `NoMemory`.
#[unsafe(no_mangle)]
pub extern "C" fn colock_store_new(alloc: Global, slot: &mut Slot) -> u32
    ensures in_use { IsSome slot.old.handle.held → (result ≡ number Code.InUse) × (slot.new.handle.held ≡ slot.old.handle.held) }
    ensures begun { slot.old.handle.held ≡ None → ((result ≡ number Code.Done) × (objects_at slot.new.handle.held ≡ Some [])) ⊎ ((result ≡ number Code.NoMemory) × (slot.new.handle.held ≡ None)) }
{
    if slot.is_open() {
        return Code::InUse.number();
    }
    hold(alloc, slot, Held::OfObjects(Vec::new(alloc))).number()
}

/// Adds an object of a type, which objects share: `NotHeld` where the one handle isn't of a store that was
/// begun, or the other of a type, or `NoMemory`.
#[unsafe(no_mangle)]
pub extern "C" fn colock_store_add(alloc: Global, slot: &mut Slot, of: &mut Slot) -> u32
    ensures type_stays { of.new.handle.held ≡ of.old.handle.held }
    ensures adds { (ms : List Meaning) (c : Checked) → objects_at slot.old.handle.held ≡ Some ms → type_at of.old.handle.held ≡ Some c → AddsObject ms c result slot.new.handle.held }
    ensures no_objects { objects_at slot.old.handle.held ≡ None → (result ≡ number Code.NotHeld) × (slot.new.handle.held ≡ slot.old.handle.held) }
    ensures no_type { type_at of.old.handle.held ≡ None → (result ≡ number Code.NotHeld) × (slot.new.handle.held ≡ slot.old.handle.held) }
{
    let Some(mut held) = slot.take(alloc) else {
        return Code::NotHeld.number();
    };
    let Some(kind) = of.take(alloc) else {
        slot.put(held);
        return Code::NotHeld.number();
    };
    let code = store_objects::add_object(alloc, &mut held, &kind);
    of.put(kind);
    slot.put(held);
    code.number()
}

/// Makes the store of its objects, whose history will have at most `max_events` events: `NotHeld`,
/// `NoObjects`, `TooManyObjects`, `NotFresh`, `BadMax` or `NoMemory`, and the objects stay.
#[unsafe(no_mangle)]
pub extern "C" fn colock_store_open(alloc: Global, slot: &mut Slot, max_events: u64) -> u32
    ensures makes { (ms : List Meaning) → objects_at slot.old.handle.held ≡ Some ms → MakesStore ms (standard_with max_events) result slot.new.handle.held }
    ensures no_objects { objects_at slot.old.handle.held ≡ None → (result ≡ number Code.NotHeld) × (slot.new.handle.held ≡ slot.old.handle.held) }
{
    let standard = Limits::standard();
    colock_store_open_with(alloc, slot, max_events, standard.open, standard.objects)
}

/// The same with limits of the store's own: from 2 to 4,294,967,295 events, from 1 to 65,536 open transactions, and from 1 to
/// 65,536 objects. `BadMax` where one is out of its range.
#[unsafe(no_mangle)]
pub extern "C" fn colock_store_open_with(
    alloc: Global,
    slot: &mut Slot,
    events: u64,
    open: u32,
    objects: u32,
) -> u32
    ensures makes { (ms : List Meaning) → objects_at slot.old.handle.held ≡ Some ms → MakesStore ms (limits_of events «open» objects) result slot.new.handle.held }
    ensures no_objects { objects_at slot.old.handle.held ≡ None → (result ≡ number Code.NotHeld) × (slot.new.handle.held ≡ slot.old.handle.held) }
{
    let Some(mut held) = slot.take(alloc) else {
        return Code::NotHeld.number();
    };
    let code = store_objects::make(alloc, &mut held, events, open, objects);
    slot.put(held);
    code.number()
}
