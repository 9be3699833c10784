//! What an audit of epochs is given of each.

use object_trait::Event;

/// The history of an epoch of the first so many objects of all.
#[derive(Debug, Clone, Copy)]
pub struct EpochHistory<'a> {
    /// How many objects it has.
    pub objects: usize,
    /// Its events, oldest first.
    pub events: &'a [Event],
}
