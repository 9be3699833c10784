//! Names that objects have already.

ghost use Rattle.std.specs.Prelude.{◌≡◌, ◌||◌, ℕ, List, Some, IfOk, OnOk, MatchOption};
ghost use Rattle.std.specs.List.{list_any};
ghost use Rattle.std.specs.Str.{bytes_eq};
ghost use Rattle.object_name.specs.ObjectName.{is_same_name};
ghost use Rattle.durable_store.specs.Names.{HaveNewNames, IsFirstTaken, SayNames, knows_name};

use indexmap::IndexSet;
use object_name::ObjectName;
use std::alloc::{AllocError, Global};
use store_text::ObjectLine;

/// The place of the first of these lines whose name a known object has, or a line before it.
pub(crate) fn taken_name(
    alloc: Global,
    known: &[ObjectLine],
    lines: &[ObjectLine],
) -> Result<Option<usize>, AllocError>
    ensures { IfOk result (λ taken. MatchOption taken
        (HaveNewNames known.now lines.now)
        (IsFirstTaken known.now lines.now)) }
{
    let mut names = names_of(alloc, known)?;
    for x in 0..lines.len() {
        let line = &lines[x];
        if is_named(&names, line) {
            return Ok(Some(x));
        }
        put_name(&mut names, line)?;
    }
    Ok(None)
}

/// The names of objects.
fn names_of(alloc: Global, objects: &[ObjectLine]) -> Result<IndexSet<ObjectName>, AllocError>
    ensures { IfOk result (λ names. SayNames objects.now names.keys) }
{
    let mut names = IndexSet::new(alloc);
    for object in objects {
        put_name(&mut names, object)?;
    }
    Ok(names)
}

/// Whether the name of an object is among these.
fn is_named(names: &IndexSet<ObjectName>, object: &ObjectLine) -> bool
    ensures { result ≡ knows_name names.now.keys object.now.name }
{
    match object.name {
        Some(name) => names.contains(&name),
        None => false,
    }
}

/// Puts the name of an object among these, where it has one.
fn put_name(names: &mut IndexSet<ObjectName>, object: &ObjectLine) -> Result<(), AllocError>
    ensures { OnOk result ((w : List ℕ) →
        list_any (bytes_eq w) names.new.keys ≡ (list_any (bytes_eq w) names.old.keys || is_same_name (Some w) object.now.name)) }
{
    if let Some(name) = object.name {
        names.insert(name)?;
    }
    Ok(())
}
