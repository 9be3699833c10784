use crate::operations::Operations;

/// A transaction that committed.
#[derive(Drop)]
pub struct Committed {
    /// Its number.
    pub number: u32,
    /// Its operations that survive, over all objects.
    pub operations: Operations,
}
