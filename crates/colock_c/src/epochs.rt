//! Exports: a store begins anew, and the end of what a handle holds.

ghost use Rattle.std.specs.Prelude.{◌≡◌, [], List, IsSome, None, Some};
ghost use Rattle.object_trait.specs.Meaning.{Meaning};
ghost use Rattle.store_laws.specs.Stored.{Stored};
ghost use Rattle.library_calls.specs.Codes.{number};
ghost use Rattle.library_calls.specs.Epochs.{IsExtension, IsRenewal};
ghost use Rattle.library_calls.specs.Holding.{objects_at, store_at};

use crate::slot::Slot;
use library_calls::Code;
use library_calls::renewals::{extend, renew};
use std::alloc::Global;

/// Begins an epoch: a store of the same types with the same limits. Where no transaction is open, it is at the states that
/// were kept, and has no event yet. Else all of them are carried: it begins at the committed states, they begin in it with
/// the numbers 0, 1, 2, .. in the order of their old ones, and do again what survives of them. The events of the one before
/// are let go. `NotHeld`, `StillOpen` (a transaction is open, and some yes is one-way) or `NoMemory`, and the store is as it
/// was.
#[unsafe(no_mangle)]
pub extern "C" fn colock_renew(alloc: Global, slot: &mut Slot) -> u32
    ensures renews { (s : Stored) → store_at slot.old.handle.held ≡ Some s → IsRenewal s result slot.new.handle.held }
    ensures no_store { store_at slot.old.handle.held ≡ None → (result ≡ number Code.NotHeld) × (slot.new.handle.held ≡ slot.old.handle.held) }
{
    let Some(mut held) = slot.take(alloc) else {
        return Code::NotHeld.number();
    };
    let code = renew(alloc, &mut held);
    slot.put(held);
    code.number()
}

/// Begins an epoch with more objects, which come after those that there are: those of a store that was begun and
/// isn't opened. They are taken however it ends, so that one is begun with none then; but where one of the handles
/// holds another thing, both stay. `NotHeld`, `StillOpen`, `TooManyObjects`, `NotFresh` or `NoMemory`, and the store
/// is as it was.
#[unsafe(no_mangle)]
pub extern "C" fn colock_store_extend(alloc: Global, slot: &mut Slot, added: &mut Slot) -> u32
    ensures extends { (s : Stored) (ms : List Meaning) → store_at slot.old.handle.held ≡ Some s → objects_at added.old.handle.held ≡ Some ms → IsExtension s ms result slot.new.handle.held × (objects_at added.new.handle.held ≡ Some []) }
    ensures no_store { store_at slot.old.handle.held ≡ None → (result ≡ number Code.NotHeld) × (slot.new.handle.held ≡ slot.old.handle.held) × (added.new.handle.held ≡ added.old.handle.held) }
    ensures no_objects { objects_at added.old.handle.held ≡ None → (result ≡ number Code.NotHeld) × (slot.new.handle.held ≡ slot.old.handle.held) × (added.new.handle.held ≡ added.old.handle.held) }
{
    let Some(mut held) = slot.take(alloc) else {
        return Code::NotHeld.number();
    };
    let Some(mut objects) = added.take(alloc) else {
        slot.put(held);
        return Code::NotHeld.number();
    };
    let code = extend(alloc, &mut held, &mut objects);
    added.put(objects);
    slot.put(held);
    code.number()
}

/// Ends what the handle holds: a store aborts what is open. It may be used again. `NotHeld` where it
/// holds nothing.
#[unsafe(no_mangle)]
pub extern "C" fn colock_close(alloc: Global, slot: &mut Slot) -> u32
    ensures closed { slot.new.handle.held ≡ None }
    ensures some { IsSome slot.old.handle.held → result ≡ number Code.Done }
    ensures none { slot.old.handle.held ≡ None → result ≡ number Code.NotHeld }
{
    match slot.take(alloc) {
        Some(_held) => Code::Done.number(),
        None => Code::NotHeld.number(),
    }
}
