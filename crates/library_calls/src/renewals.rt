//! A store that begins anew, at what a handle holds.

ghost use Rattle.std.specs.Prelude.{◌≡◌, [], List, None, Some};
ghost use Rattle.object_trait.specs.Meaning.{Meaning};
ghost use Rattle.store_laws.specs.Stored.{Stored};
ghost use Rattle.library_calls.specs.Codes.{number};
ghost use Rattle.library_calls.specs.Epochs.{IsExtension, IsRenewal};
ghost use Rattle.library_calls.specs.Holding.{objects_at, store_at};

use crate::code::Code;
use crate::held::Held;
use std::alloc::Global;
use std::mem;

/// A store that begins anew, in the place of the one that there was, with all that is open.
pub fn renew(alloc: Global, held: &mut Held) -> Code
    ensures renews { (s : Stored) → store_at (Some held.old) ≡ Some s → IsRenewal s (number result) (Some held.new) }
    ensures no_store { store_at (Some held.old) ≡ None → (number result ≡ number Code.NotHeld) × (held.new ≡ held.old) }
{
    let (now, code) = mem::replace(held, Held::OfObjects(Vec::new(alloc))).renewed(alloc);
    *held = now;
    code
}

/// A store that begins anew with more objects, in the place of the one that there was.
pub fn extend(alloc: Global, held: &mut Held, added: &mut Held) -> Code
    ensures extends { (s : Stored) (ms : List Meaning) → store_at (Some held.old) ≡ Some s → objects_at (Some added.old) ≡ Some ms → IsExtension s ms (number result) (Some held.new) × (objects_at (Some added.new) ≡ Some []) }
    ensures no_store { store_at (Some held.old) ≡ None → (number result ≡ number Code.NotHeld) × (held.new ≡ held.old) × (added.new ≡ added.old) }
    ensures no_objects { objects_at (Some added.old) ≡ None → (number result ≡ number Code.NotHeld) × (held.new ≡ held.old) × (added.new ≡ added.old) }
{
    if !held.is_store() {
        return Code::NotHeld;
    }
    let Some(objects) = added.take_objects(alloc) else {
        return Code::NotHeld;
    };
    let (now, code) = mem::replace(held, Held::OfObjects(Vec::new(alloc))).extended(alloc, objects);
    *held = now;
    code
}
