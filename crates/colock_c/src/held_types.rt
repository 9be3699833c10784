//! What is put behind a handle that holds nothing: a type as it was declared, a number in escrow alone.

ghost use Rattle.std.specs.Prelude.{◌≡◌, ◌⊎◌, Some, None};
ghost use Rattle.declared_types.specs.Declarations.{number_file};
ghost use Rattle.declared_types.specs.declared.declared_type.Declaration.{Declaration as AnyDeclaration};
ghost use Rattle.library_calls.specs.Codes.{number};
ghost use Rattle.library_calls.specs.declared.words.ColockFault.{ColockFault as FaultWords};
ghost use Rattle.colock_c.specs.Types.{IsFileFor, MakesType, IsNotFor};

use crate::slot::Slot;
use declared_types::{Declaration, DeclaredType, TypeFile};
use library_calls::checked_types::checked_type;
use library_calls::{Code, ColockFault, Held};
use number_types::NumberFile;
use std::alloc::Global;
use std::sync::Arc;
use table_checker::{Kind, check_number};

/// Puts something behind a handle that holds nothing.
pub(crate) fn hold(alloc: Global, slot: &mut Slot, held: Held) -> Code
    requires { slot.old.handle.held ≡ None }
    ensures { ((result ≡ Code.Done) × (slot.new.handle.held ≡ Some held)) ⊎ ((result ≡ Code.NoMemory) × (slot.new.handle.held ≡ None)) }
{
    match Box::new(alloc, held) {
        Ok(held) => {
            slot.put(held);
            Code::Done
        }
        Err(_) => Code::NoMemory,
    }
}

/// Puts the type of a file behind a handle that holds nothing, where the checker accepts it for a kind.
pub(crate) fn hold_type(
    alloc: Global,
    slot: &mut Slot,
    kind: Kind,
    file: TypeFile,
    fault: &mut ColockFault,
) -> Code
    requires { slot.old.handle.held ≡ None }
    ensures { MakesType (λ f. f ≡ file) (λ n words. ⊥) kind fault.old (number result) fault.new slot.new.handle.held }
{
    match checked_type(alloc, kind, file, fault) {
        Ok(checked) => hold(alloc, slot, Held::OfType(checked)),
        Err(code) => code,
    }
}

/// Puts a number behind a handle that holds nothing.
pub(crate) fn hold_number(alloc: Global, slot: &mut Slot, file: NumberFile) -> Code
    requires { slot.old.handle.held ≡ None }
    ensures { (was : FaultWords) → MakesType (λ f. f ≡ number_file file) (λ n words. ⊥) Kind.Escrow was (number result) was slot.new.handle.held }
{
    let checked = check_number(file);
    // (read for its clause on what was checked)
    let _declared = checked.declared();
    match Arc::new(alloc, checked) {
        Ok(checked) => hold(alloc, slot, Held::OfType(checked)),
        Err(_) => Code::NoMemory,
    }
}

/// The type of an equal declaration.
pub(crate) fn hold_declared(
    alloc: Global,
    slot: &mut Slot,
    kind: Kind,
    declared: &DeclaredType,
    fault: &mut ColockFault,
) -> Code
    requires { slot.old.handle.held ≡ None }
    ensures { MakesType (IsFileFor kind declared.now) (IsNotFor kind declared.now fault.old) kind fault.old (number result) fault.new slot.new.handle.held }
{
    match declared.declaration() {
        Declaration::Table(file) => hold_table(alloc, slot, kind, file, fault),
        Declaration::Number(number) => hold_in_escrow(alloc, slot, kind, number),
    }
}

/// The type of an equal file.
fn hold_table(
    alloc: Global,
    slot: &mut Slot,
    kind: Kind,
    file: &TypeFile,
    fault: &mut ColockFault,
) -> Code
    requires { slot.old.handle.held ≡ None }
    ensures { MakesType (λ f. f ≡ file.now) (λ n words. ⊥) kind fault.old (number result) fault.new slot.new.handle.held }
{
    match file.copy(alloc) {
        Ok(copied) => hold_type(alloc, slot, kind, copied, fault),
        Err(_) => Code::NoMemory,
    }
}

/// The type of an equal number, where the kind is escrow.
fn hold_in_escrow(alloc: Global, slot: &mut Slot, kind: Kind, file: &NumberFile) -> Code
    requires { slot.old.handle.held ≡ None }
    ensures { (was : FaultWords) → MakesType (IsFileFor kind (AnyDeclaration.Number file.now)) (IsNotFor kind (AnyDeclaration.Number file.now) was) kind was (number result) was slot.new.handle.held }
{
    match kind {
        Kind::Escrow => hold_copy(alloc, slot, file),
        Kind::Undo | Kind::Intentions => Code::NeedsEscrow,
    }
}

/// An equal number, in escrow.
fn hold_copy(alloc: Global, slot: &mut Slot, file: &NumberFile) -> Code
    requires { slot.old.handle.held ≡ None }
    ensures { (was : FaultWords) → MakesType (λ f. f ≡ number_file file.now) (λ n words. ⊥) Kind.Escrow was (number result) was slot.new.handle.held }
{
    match file.copy(alloc) {
        Ok(copied) => hold_number(alloc, slot, copied),
        Err(_) => Code::NoMemory,
    }
}
