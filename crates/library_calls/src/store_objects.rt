//! A store made of types, at what a handle holds.

ghost use Rattle.std.specs.Prelude.{◌≡◌, ◌<◌, ◌⊎◌, ◌++◌, ◌∷◌, [], List, map, false, Some, None};
ghost use Rattle.table_checker.specs.Checked.{Checked};
ghost use Rattle.object_trait.specs.Meaning.{Meaning};
ghost use Rattle.object_trait.specs.Steps.{IsFresh};
ghost use Rattle.objects.specs.Object.{meaning_of};
ghost use Rattle.type_table.specs.Limits.{longest_history};
ghost use Rattle.library_calls.specs.Codes.{number};
ghost use Rattle.library_calls.specs.Holding.{objects_at, type_at};
ghost use Rattle.library_calls.specs.Making.{AddsObject, MakesStore, limits_of};

use crate::code::Code;
use crate::held::Held;
use objects::Object;
use std::alloc::Global;
use std::mem;
use std::sync::Arc;
use store_limits::Limits;
use table_checker::CheckedType;

/// Another object, of this type, after those of which the store will be made.
pub fn add_object(alloc: Global, held: &mut Held, of: &Held) -> Code
    ensures adds { (ms : List Meaning) (c : Checked) → objects_at (Some held.old) ≡ Some ms → type_at (Some of.now) ≡ Some c → AddsObject ms c (number result) (Some held.new) }
    ensures no_objects { objects_at (Some held.old) ≡ None → (number result ≡ number Code.NotHeld) × (held.new ≡ held.old) }
    ensures no_type { type_at (Some of.now) ≡ None → (number result ≡ number Code.NotHeld) × (held.new ≡ held.old) }
{
    match held {
        Held::OfObjects(objects) => match of {
            Held::OfType(checked) => push_object(alloc, objects, checked),
            Held::OfObjects(_) => Code::NotHeld,
            Held::OfStore(_) => Code::NotHeld,
        },
        Held::OfType(_) => Code::NotHeld,
        Held::OfStore(_) => Code::NotHeld,
    }
}

/// Another object, of this type.
fn push_object(alloc: Global, objects: &mut Vec<Object>, checked: &Arc<CheckedType>) -> Code
    ensures { ((result ≡ Code.Done) × (m : Meaning) × IsFresh m × (m.checked ≡ checked.now.value) × (map meaning_of objects.new.items ≡ map meaning_of objects.old.items ++ m ∷ []))
        ⊎ ((result ≡ Code.NoMemory) × (objects.new.items ≡ objects.old.items)) }
{
    let Ok(shared) = checked.clone() else {
        return Code::NoMemory;
    };
    match objects.push(Object::new(alloc, shared)) {
        Ok(()) => Code::Done,
        Err(_) => Code::NoMemory,
    }
}

/// The store of these objects, in their place. Where it is refused the objects stay.
pub fn make(alloc: Global, held: &mut Held, events: u64, open: u32, objects: u32) -> Code
    ensures makes { (ms : List Meaning) → objects_at (Some held.old) ≡ Some ms → MakesStore ms (limits_of events «open» objects) (number result) (Some held.new) }
    ensures no_objects { objects_at (Some held.old) ≡ None → (number result ≡ number Code.NotHeld) × (held.new ≡ held.old) }
{
    let limits = Limits {
        events: limit_of(events),
        open,
        objects,
    };
    let (now, code) = mem::replace(held, Held::OfObjects(Vec::new(alloc))).made(alloc, limits);
    *held = now;
    code
}

/// A limit of events, as a store takes it. What is too large for a limit is as 0, which is none.
fn limit_of(max_events: u64) -> u32
    ensures { (result ≡ max_events) ⊎ ((result ≡ 0) × (longest_history < max_events)) }
{
    if max_events <= u64::from(u32::MAX) {
        max_events as u32
    } else {
        0
    }
}
