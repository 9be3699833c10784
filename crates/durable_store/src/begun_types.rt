//! The objects of a file, of its types at the states where its history begins.

ghost use Rattle.std.specs.Prelude.{◌≡◌, ◌<◌, true, length, map, Some, IfOk, OnOk, IfErr, IfSome, slice_get};
ghost use Rattle.std.specs.Arc.{arc_value};
ghost use Rattle.objects.specs.Object.{meaning_of};
ghost use Rattle.store.specs.Ends.{AreFresh};
ghost use Rattle.store_laws.specs.Stored.{types_of};
ghost use Rattle.journal.specs.Said.{contents};
ghost use Rattle.durable_store.specs.Begun.{HaveOneType, BeginAt, AreRead, BeginsAt, IsAtPlace};
ghost use Rattle.durable_store.specs.Created.{IsReadFormat};
ghost use Rattle.durable_store.specs.Types.{HasTypes};
ghost use Rattle.durable_store.specs.Recovered.{IsStrayError};
ghost use Rattle.declared_text.specs.Declared.{Declares};
ghost use Rattle.object_types.specs.Types.{IsSharedAt};

use crate::format::check_format;
use crate::open_error::OpenError;
use declared_text::read_declared;
use declared_types::DeclaredType;
use journal::{FileContents, FirstState, JournalError, TypeText};
use object_types::accept_types;
use objects::{Object, new_objects};
use std::alloc::Global;
use std::sync::Arc;
use store_text::ObjectLine;
use table_checker::CheckedType;

/// The objects of a file, in their order.
///
/// # Errors
///
/// `Text`, `Untyped` or `NoMemory`.
pub(crate) fn objects_of(alloc: Global, said: &FileContents) -> Result<Vec<Object>, OpenError>
    ensures fresh { IfOk result (λ objects. AreFresh (map meaning_of objects.items)) }
    ensures types { IfOk result (λ objects. HasTypes (contents said.now) (types_of (map meaning_of objects.items))) }
    ensures strays { IfErr result (λ e. IsStrayError e → ⊥) }
{
    let begun = file_types(alloc, said)?;
    Ok(new_objects(alloc, &begun)?)
}

/// The types of a file's objects, at the states where its history begins.
///
/// # Errors
///
/// `Journal` where the file is of another format, or where there aren't as many states as objects; `Text`,
/// `Untyped` or `NoMemory`.
pub fn file_types(alloc: Global, said: &FileContents) -> Result<Vec<Arc<CheckedType>>, OpenError>
    ensures types { IfOk result (λ types. HasTypes (contents said.now) (map arc_value types.items)) }
    ensures format { OnOk result (IsReadFormat said.now.header.format) }
    ensures strays { IfErr result (λ e. IsStrayError e → ⊥) }
{
    check_format(said)?;
    let declared = declared_in(alloc, &said.types)?;
    let lines: &[ObjectLine] = &said.objects;
    let types = accept_types(alloc, &declared, lines)?;
    let begun = types_at(alloc, &types, lines, &said.states)?;
    Ok(begun)
}

/// The types that the texts declare, in their order.
///
/// # Errors
///
/// `Text` or `NoMemory`.
pub(crate) fn declared_in(alloc: Global, texts: &[TypeText]) -> Result<Vec<DeclaredType>, OpenError>
    ensures read { IfOk result (λ declared. AreRead texts.now declared.items) }
    ensures strays { IfErr result (λ e. IsStrayError e → ⊥) }
{
    let mut declared = Vec::new(alloc);
    for (position, text) in texts.iter().enumerate() {
        let found = declared_at(alloc, position, text)?;
        declared.push(found)?;
    }
    Ok(declared)
}

/// The type that the text at this position declares.
fn declared_at(alloc: Global, position: usize, text: &TypeText) -> Result<DeclaredType, OpenError>
    ensures declares { IfOk result (λ declared. Declares text.now declared) }
    ensures strays { IfErr result (λ e. IsStrayError e → ⊥) }
{
    match read_declared(alloc, text.as_bytes()) {
        Ok(declared) => Ok(declared),
        Err(fault) => Err(OpenError::of_text(position, fault)),
    }
}

/// The types of objects at the states where they begin. Objects of one kind at one place that begin at one state
/// share theirs.
///
/// # Errors
///
/// `Journal` where there aren't as many states, `Untyped` or `NoMemory`.
fn types_at(
    alloc: Global,
    types: &[Arc<CheckedType>],
    lines: &[ObjectLine],
    states: &[FirstState],
) -> Result<Vec<Arc<CheckedType>>, OpenError>
    requires as_many { length types.now ≡ length lines.now }
    requires alike { HaveOneType lines.now (map arc_value types.now) }
    ensures states { OnOk result (length states.now ≡ length lines.now) }
    ensures as_many { IfOk result (λ begun. length begun.items ≡ length lines.now) }
    ensures at { IfOk result (λ begun. BeginAt (map arc_value types.now) states.now (map arc_value begun.items)) }
    ensures strays { IfErr result (λ e. IsStrayError e → ⊥) }
{
    if states.len() != lines.len() {
        return Err(OpenError::Journal(JournalError::Foreign));
    }
    let mut begun = Vec::new(alloc);
    for x in 0..lines.len() {
        let at = begun_type(alloc, types, lines, states, &begun, x)?;
        begun.push(at)?;
    }
    Ok(begun)
}

/// The type of object x at the state where it begins: that of an object before it of the same kind at the same place
/// that begins at the same state, else one of its own.
///
/// # Errors
///
/// `Untyped` or `NoMemory`.
fn begun_type(
    alloc: Global,
    types: &[Arc<CheckedType>],
    lines: &[ObjectLine],
    states: &[FirstState],
    begun: &Vec<Arc<CheckedType>>,
    x: usize,
) -> Result<Arc<CheckedType>, OpenError>
    requires types { length types.now ≡ length lines.now }
    requires states { length states.now ≡ length lines.now }
    requires inside { x < length lines.now }
    requires before { length begun.now.items ≡ x }
    requires alike { HaveOneType lines.now (map arc_value types.now) }
    requires known { BeginAt (map arc_value types.now) states.now (map arc_value begun.now.items) }
    ensures at { IfOk result (λ at. IsAtPlace (map arc_value types.now) states.now x (arc_value at)) }
    ensures strays { IfErr result (λ e. IsStrayError e → ⊥) }
{
    match place_of(&lines[..x], &states[..x], &lines[x], states[x]) {
        Some(other) => Ok(Arc::clone(&begun[other])?),
        None => type_at(alloc, x, &types[x], states[x]),
    }
}

/// The position of an object of the kind and at the place of this line that begins at this state.
fn place_of(
    lines: &[ObjectLine],
    states: &[FirstState],
    line: &ObjectLine,
    first: FirstState,
) -> Option<usize>
    requires { length states.now ≡ length lines.now }
    ensures { IfSome result (λ position. IsSharedAt lines.now position line.now × (slice_get states.now position ≡ Some first)) }
{
    for position in 0..lines.len() {
        if is_alike(&lines[position], line) && states[position] == first {
            return Some(position);
        }
    }
    None
}

/// Whether two lines are of one kind at one place.
fn is_alike(one: &ObjectLine, other: &ObjectLine) -> bool
    ensures kind { result ≡ true → one.now.kind ≡ other.now.kind }
    ensures file { result ≡ true → one.now.file ≡ other.now.file }
{
    one.kind == other.kind && one.file == other.file
}

/// The type of object x at the state where it begins.
fn type_at(
    alloc: Global,
    x: usize,
    checked: &CheckedType,
    first: FirstState,
) -> Result<Arc<CheckedType>, OpenError>
    ensures at { IfOk result (λ at. BeginsAt checked.now first (arc_value at)) }
    ensures strays { IfErr result (λ e. IsStrayError e → ⊥) }
{
    match checked.at(alloc, first.state)? {
        Some(at) => Ok(Arc::new(alloc, at)?),
        None => Err(OpenError::Untyped(x)),
    }
}
