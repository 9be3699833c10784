//! The checked types of objects, one after another.

ghost use Rattle.std.specs.Prelude.{◌≡◌, true, map, IfOk, IfErr, IfSome};
ghost use Rattle.declared_types.specs.declared.declared_type.Declaration.{Declaration as AnyDeclaration};
ghost use Rattle.object_types.specs.Types.{AreTypesOf, IsTypeOf, IsFirstObjectFault, HasAcceptedType, IsFaultAt, IsCheckedFor, IsRefusedFor, IsSharedAt, value_of};

use crate::object_fault::ObjectFault;
use declared_types::{Declaration, DeclaredType, TypeFile};
use number_types::NumberFile;
use std::alloc::Global;
use std::sync::Arc;
use store_text::ObjectLine;
use table_checker::{CheckedType, check, check_number};
use type_table::Kind;

/// The checked types of some objects, in their order. Objects of one kind at one place share theirs.
///
/// # Errors
///
/// The first object whose place isn't that of a type, or which names a number and is of another kind than
/// escrow, or whose type isn't accepted for its kind; or memory was refused.
pub fn accept_types(
    alloc: Global,
    declared: &[DeclaredType],
    objects: &[ObjectLine],
) -> Result<Vec<Arc<CheckedType>>, ObjectFault>
    ensures accepted { IfOk result (λ types. AreTypesOf declared.now objects.now (map value_of types.items)) }
    ensures refused { IfErr result (IsFirstObjectFault HasAcceptedType declared.now objects.now) }
{
    let mut types = Vec::new(alloc);
    for (x, object) in objects.iter().enumerate() {
        let accepted = accept(alloc, declared, &objects[..x], &types, x, object)?;
        types.push(accepted)?;
    }
    Ok(types)
}

/// The checked type of object x: that of an object before it with the same kind and place, else one of
/// its own.
fn accept(
    alloc: Global,
    declared: &[DeclaredType],
    before: &[ObjectLine],
    types: &Vec<Arc<CheckedType>>,
    x: usize,
    object: &ObjectLine,
) -> Result<Arc<CheckedType>, ObjectFault>
    requires known { AreTypesOf declared.now before.now (map value_of types.now.items) }
    ensures accepted { IfOk result (λ a. IsTypeOf declared.now object.now (value_of a)) }
    ensures refused { IfErr result (IsFaultAt declared.now x object.now) }
{
    if let Some(other) = place_of(before, object) {
        return Ok(Arc::clone(&types[other])?);
    }
    match declared.get(object.file as usize) {
        Some(found) => check_copy(alloc, x, object.kind, found),
        None => Err(ObjectFault::NoType {
            x,
            place: object.file,
        }),
    }
}

/// The place of a line with the same kind and place among others, looked for from the last: such lines often
/// follow each other.
fn place_of(lines: &[ObjectLine], line: &ObjectLine) -> Option<usize>
    ensures { IfSome result (λ place. IsSharedAt lines.now place line.now) }
{
    for place in (0..lines.len()).rev() {
        let other = &lines[place];
        if other.kind == line.kind && other.file == line.file {
            return Some(place);
        }
    }
    None
}

/// The checked type of an equal declaration.
fn check_copy(
    alloc: Global,
    x: usize,
    kind: Kind,
    declared: &DeclaredType,
) -> Result<Arc<CheckedType>, ObjectFault>
    ensures accepted { IfOk result (λ a. IsCheckedFor kind declared.now (value_of a)) }
    ensures refused { IfErr result (IsRefusedFor kind declared.now x) }
{
    match declared.declaration() {
        Declaration::Table(file) => check_file(alloc, x, kind, file),
        Declaration::Number(number) => accept_number(alloc, x, kind, number),
    }
}

/// The checked type of an equal file.
fn check_file(
    alloc: Global,
    x: usize,
    kind: Kind,
    file: &TypeFile,
) -> Result<Arc<CheckedType>, ObjectFault>
    ensures accepted { IfOk result (λ a. IsCheckedFor kind (AnyDeclaration.Table file.now) (value_of a)) }
    ensures refused { IfErr result (IsRefusedFor kind (AnyDeclaration.Table file.now) x) }
{
    let copy = file.copy(alloc)?;
    match check(copy, kind) {
        Ok(checked) => Ok(Arc::new(alloc, checked)?),
        Err((_, refusal)) => Err(ObjectFault::Refused { x, refusal }),
    }
}

/// The type of an equal number, which is accepted for escrow alone.
fn accept_number(
    alloc: Global,
    x: usize,
    kind: Kind,
    number: &NumberFile,
) -> Result<Arc<CheckedType>, ObjectFault>
    ensures accepted { IfOk result (λ a. IsCheckedFor kind (AnyDeclaration.Number number.now) (value_of a)) }
    ensures refused { IfErr result (IsRefusedFor kind (AnyDeclaration.Number number.now) x) }
{
    match kind {
        Kind::Escrow => {
            let checked = check_number(number.copy(alloc)?);
            // (read for its clause on what was checked)
            let _initial = checked.initial();
            Ok(Arc::new(alloc, checked)?)
        }
        Kind::Undo | Kind::Intentions => Err(ObjectFault::NeedsEscrow { x }),
    }
}
