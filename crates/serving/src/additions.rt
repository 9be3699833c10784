//! Where the objects are read that a client asks to be added to a store.

use durable_store::ObjectNames;
use journal::TypeText;
use std::alloc::{AllocError, Global};
use store_text::ObjectLine;

/// What is to be added to a store: objects, and the texts of types among which they name theirs by their places.
#[derive(Drop)]
pub struct Added {
    pub texts: Vec<TypeText>,
    pub lines: Vec<ObjectLine>,
}

/// Why nothing is to be added.
#[derive(Drop)]
pub enum AdditionFault {
    /// What was read has a fault, or can't be read. A line for the client says why, without its LF.
    Refused { why: Vec<u8> },
    /// Memory was refused.
    NoMemory,
}

impl From<AllocError> for AdditionFault {
    ghost from_gives = { λ _ _. Unit {0} };

    fn from(_: AllocError) -> AdditionFault {
        AdditionFault::NoMemory
    }
}

/// What reads objects that are to be added to a store.
pub trait Additions {
    /// What the files at these paths add to a store that has so many objects, with these names: the first one's
    /// objects, of the types that the others declare. All of it is read and checked, so that only memory and the file of
    /// the store can fail as it is added.
    ///
    /// # Errors
    ///
    /// A text has a fault or can't be read, a type isn't accepted, there would be too many objects, a name is
    /// taken, or memory was refused.
    fn read(
        &mut self,
        alloc: Global,
        so_far: u32,
        names: &ObjectNames,
        paths: &[&[u8]],
    ) -> Result<Added, AdditionFault>;
}

/// Nothing is ever added.
#[derive(Clone, Copy)]
pub struct NoAdditions;

impl Additions for NoAdditions {
    fn read(
        &mut self,
        alloc: Global,
        _so_far: u32,
        _names: &ObjectNames,
        _paths: &[&[u8]],
    ) -> Result<Added, AdditionFault> {
        let why = Vec::from_slice(alloc, b"nothing is added")?;
        Err(AdditionFault::Refused { why })
    }
}
