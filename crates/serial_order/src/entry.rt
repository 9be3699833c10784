use type_table::Operation;

/// An operation that a transaction executed at an object.
#[derive(Clone, Copy, Debug, PartialEq, Eq)]
pub struct Entry {
    /// The transaction.
    pub by: u32,
    /// The object, by its place.
    pub at: u32,
    /// The operation.
    pub op: Operation,
}
