//! Types that are made of what crosses, and put behind a handle that holds nothing.

ghost use Rattle.std.specs.Prelude.{◌≡◌, IsSome, None, Some, MatchResult};
ghost use Rattle.type_table.specs.declared.kind.Kind.{Kind as AnyKind};
ghost use Rattle.library_calls.specs.Codes.{number};
ghost use Rattle.library_calls.specs.Types.{IsNoTypeFile, IsTabledOf};
ghost use Rattle.library_calls.specs.Words.{kind_by_number};
ghost use Rattle.colock_c.specs.NumberTypes.{HasNoNumber, IsOfNumber};
ghost use Rattle.colock_c.specs.Types.{HasNoFile, IsDeclaredFile, MakesType};

use crate::held_types::{hold_declared, hold_type};
use crate::slot::Slot;
use declared_types::TypeFile;
use library_calls::families::number_of;
use library_calls::texts::{declared_of, tabled};
use library_calls::{Code, ColockFault, kind_at};
use std::alloc::Global;
use table_checker::Kind;

/// The type that a text declares.
pub(crate) fn hold_text(
    alloc: Global,
    slot: &mut Slot,
    kind: Kind,
    text: &[u8],
    fault: &mut ColockFault,
) -> Code
    requires { slot.old.handle.held ≡ None }
    ensures { MakesType (IsDeclaredFile text.now kind) (HasNoFile text.now kind fault.old) kind fault.old (number result) fault.new slot.new.handle.held }
{
    match declared_of(alloc, text, fault) {
        Ok(declared) => hold_declared(alloc, slot, kind, &declared, fault),
        Err(code) => code,
    }
}

/// The type of a type file, with made tables in place of its own.
pub(crate) fn hold_tabled(
    alloc: Global,
    slot: &mut Slot,
    kind: Kind,
    text: &[u8],
    fault: &mut ColockFault,
) -> Code
    requires { slot.old.handle.held ≡ None }
    ensures { MakesType (IsTabledOf text.now) (IsNoTypeFile text.now) kind fault.old (number result) fault.new slot.new.handle.held }
{
    match tabled(alloc, text, fault) {
        Ok(file) => hold_type(alloc, slot, kind, file, fault),
        Err(code) => code,
    }
}

/// The type of a file that was made, for a handle that holds nothing and a kind, by its number.
pub(crate) fn hold_made(
    alloc: Global,
    slot: &mut Slot,
    kind: u32,
    made: Result<TypeFile, Code>,
    fault: &mut ColockFault,
) -> u32
    ensures in_use { IsSome slot.old.handle.held → (result ≡ number Code.InUse) × (slot.new.handle.held ≡ slot.old.handle.held) × (fault.new ≡ fault.old) }
    ensures no_kind { slot.old.handle.held ≡ None → kind_by_number kind ≡ None → (result ≡ number Code.BadKind) × (slot.new.handle.held ≡ None) × (fault.new ≡ fault.old) }
    ensures made { (k : AnyKind) → slot.old.handle.held ≡ None → kind_by_number kind ≡ Some k
        → MatchResult made (λ file. MakesType (λ f. f ≡ file) (λ n words. ⊥) k fault.old result fault.new slot.new.handle.held)
        (λ code. (result ≡ number code) × (fault.new ≡ fault.old) × (slot.new.handle.held ≡ None)) }
{
    if slot.is_open() {
        return Code::InUse.number();
    }
    let Some(kind) = kind_at(kind) else {
        return Code::BadKind.number();
    };
    match made {
        Ok(file) => hold_type(alloc, slot, kind, file, fault).number(),
        Err(code) => code.number(),
    }
}

/// The type of a number with these amounts.
pub(crate) fn hold_amounts(
    alloc: Global,
    slot: &mut Slot,
    kind: Kind,
    max: u32,
    amounts: &[u32],
    fault: &mut ColockFault,
) -> Code
    requires { slot.old.handle.held ≡ None }
    ensures { MakesType (IsOfNumber max amounts.now kind) (HasNoNumber max amounts.now kind fault.old) kind fault.old (number result) fault.new slot.new.handle.held }
{
    match number_of(alloc, max, amounts) {
        Ok(declared) => hold_declared(alloc, slot, kind, &declared, fault),
        Err(code) => code,
    }
}
