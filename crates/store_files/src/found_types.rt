//! The types of the objects that a text names.

ghost use Rattle.std.specs.Prelude.{map};
ghost use Rattle.store_files.specs.ObjectTypes.{FindsTypes};

use crate::several_files::read_declared;
use command_files::{Fault, Source};
use object_types::{ObjectFault, accept_types};
use std::alloc::Global;
use std::sync::Arc;
use store_text::ObjectLine;
use table_checker::{CheckRefusal, CheckedType};

/// What became of the types of the objects that a text names.
#[derive(Drop)]
pub enum ObjectTypes {
    /// All are accepted: they are in the order of the objects. Objects of one kind at one place share theirs.
    Accepted(Vec<Arc<CheckedType>>),
    /// The type of object x, counted from 0, is the first that isn't accepted for its kind.
    Refused { x: usize, refusal: CheckRefusal },
}

/// The checked types of the objects that the text at a path names: the files of the TYPE words are read in
/// their order, each parsed before the next is opened, and then, object by object, its place is tested and
/// its type is checked.
///
/// # Errors
///
/// A type's text has a fault or can't be read, no TYPE word is at an object's place, an object of another kind
/// than escrow names a number, or memory was refused.
pub fn types_for<'a, S: Source>(
    alloc: Global,
    path: &'a str,
    objects: &[ObjectLine],
    types: &[&'a str],
    source: &mut S,
) -> Result<ObjectTypes, Fault<'a>>
    ensures { FindsTypes (S.holds source.old) (map (λ p. p.now) types.now) objects.now result }
{
    let declared = read_declared(alloc, types, source)?;
    match accept_types(alloc, &declared, objects) {
        Ok(types) => Ok(ObjectTypes::Accepted(types)),
        Err(ObjectFault::Refused { x, refusal }) => Ok(ObjectTypes::Refused { x, refusal }),
        Err(ObjectFault::NoType { x, place }) => Err(Fault::NoType { path, x, place }),
        Err(ObjectFault::NeedsEscrow { x }) => Err(Fault::ObjectNeedsEscrow { path, x }),
        Err(ObjectFault::NoMemory) => Err(Fault::NoMemory),
    }
}
