//! Exports: what is read of a type.
//!
//! Each answers `NotHeld` where the handle holds no type, and writes only where it answers `Done`.

ghost use Rattle.std.specs.Prelude.{◌≡◌, ◌≢◌, Some, None};
ghost use Rattle.library_calls.specs.Codes.{number};
ghost use Rattle.library_calls.specs.Holding.{type_at};
ghost use Rattle.colock_c.specs.Named.{IsShaped, TellsStep, NamesCall, NamesReply, NamesType, TellsConflict};

use crate::slot::Slot;
use library_calls::type_parts::{conflict, declared_by, put_call, put_name, put_reply, step};
use library_calls::{Code, ColockShape, shape_of};
use std::alloc::Global;

/// The type at once: its number of states, the initial one, its number of operations, and its kind.
#[unsafe(no_mangle)]
pub extern "C" fn colock_type_shape(alloc: Global, slot: &mut Slot, shape: &mut ColockShape) -> u32
    ensures shaped { IsShaped slot.old.handle.held result shape.new }
    ensures no_type { type_at slot.old.handle.held ≡ None → result ≡ number Code.NotHeld }
    ensures reads { slot.new.handle.held ≡ slot.old.handle.held }
    ensures rest { result ≢ 0 → shape.new ≡ shape.old }
{
    let Some(held) = slot.take_type(alloc) else {
        return Code::NotHeld.number();
    };
    *shape = shape_of(held.checked().kind(), declared_by(held.checked()));
    slot.put(held);
    Code::Done.number()
}

/// The type's name, in the room's first bytes; `count` gets their number, which is at most 32. `NoRoom`.
#[unsafe(no_mangle)]
pub extern "C" fn colock_type_name(
    alloc: Global,
    slot: &mut Slot,
    room: &mut [u8],
    count: &mut u64,
) -> u32
    ensures name { NamesType slot.old.handle.held room.old result room.new count.new }
    ensures no_type { type_at slot.old.handle.held ≡ None → result ≡ number Code.NotHeld }
    ensures reads { slot.new.handle.held ≡ slot.old.handle.held }
    ensures rest { result ≢ 0 → (room.new ≡ room.old) × (count.new ≡ count.old) }
{
    let Some(held) = slot.take_type(alloc) else {
        return Code::NotHeld.number();
    };
    let code = put_name(held.checked().declared().name(), room, count);
    slot.put(held);
    code.number()
}

/// The name of the call of operation k, as `colock_type_name`. `NoOperation` or `NoRoom`.
#[unsafe(no_mangle)]
pub extern "C" fn colock_type_call(
    alloc: Global,
    slot: &mut Slot,
    k: u64,
    room: &mut [u8],
    count: &mut u64,
) -> u32
    ensures name { NamesCall slot.old.handle.held k room.old result room.new count.new }
    ensures no_type { type_at slot.old.handle.held ≡ None → result ≡ number Code.NotHeld }
    ensures reads { slot.new.handle.held ≡ slot.old.handle.held }
    ensures rest { result ≢ 0 → (room.new ≡ room.old) × (count.new ≡ count.old) }
{
    let Some(held) = slot.take_type(alloc) else {
        return Code::NotHeld.number();
    };
    let code = put_call(declared_by(held.checked()), k, room, count);
    slot.put(held);
    code.number()
}

/// The reply of operation k, as `colock_type_name`. `NoOperation` or `NoRoom`.
#[unsafe(no_mangle)]
pub extern "C" fn colock_type_reply(
    alloc: Global,
    slot: &mut Slot,
    k: u64,
    room: &mut [u8],
    count: &mut u64,
) -> u32
    ensures name { NamesReply slot.old.handle.held k room.old result room.new count.new }
    ensures no_type { type_at slot.old.handle.held ≡ None → result ≡ number Code.NotHeld }
    ensures reads { slot.new.handle.held ≡ slot.old.handle.held }
    ensures rest { result ≢ 0 → (room.new ≡ room.old) × (count.new ≡ count.old) }
{
    let Some(held) = slot.take_type(alloc) else {
        return Code::NotHeld.number();
    };
    let code = put_reply(declared_by(held.checked()), k, room, count);
    slot.put(held);
    code.number()
}

/// The state to which operation k leads from state s: `NoState`, `NoOperation`, or `NotLegal` where it
/// isn't legal there.
#[unsafe(no_mangle)]
pub extern "C" fn colock_type_step(
    alloc: Global,
    slot: &mut Slot,
    s: u64,
    k: u64,
    to: &mut u64,
) -> u32
    ensures step { TellsStep slot.old.handle.held s k result to.new }
    ensures no_type { type_at slot.old.handle.held ≡ None → result ≡ number Code.NotHeld }
    ensures reads { slot.new.handle.held ≡ slot.old.handle.held }
    ensures rest { result ≢ 0 → to.new ≡ to.old }
{
    let Some(held) = slot.take_type(alloc) else {
        return Code::NotHeld.number();
    };
    let code = step(held.checked().declared(), s, k, to);
    slot.put(held);
    code.number()
}

/// Whether operation `requested` conflicts with operation `other`, which another transaction holds: 1 or 0.
/// `NoOperation`.
#[unsafe(no_mangle)]
pub extern "C" fn colock_type_conflict(
    alloc: Global,
    slot: &mut Slot,
    requested: u64,
    other: u64,
    told: &mut u32,
) -> u32
    ensures conflict { TellsConflict slot.old.handle.held requested other result told.new }
    ensures no_type { type_at slot.old.handle.held ≡ None → result ≡ number Code.NotHeld }
    ensures reads { slot.new.handle.held ≡ slot.old.handle.held }
    ensures rest { result ≢ 0 → told.new ≡ told.old }
{
    let Some(held) = slot.take_type(alloc) else {
        return Code::NotHeld.number();
    };
    let code = conflict(held.checked(), requested, other, told);
    slot.put(held);
    code.number()
}
