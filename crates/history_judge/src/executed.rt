use type_table::Operation;

/// An operation that a transaction executed, without the transaction.
#[derive(Clone, Copy, Debug, PartialEq, Eq)]
pub struct Executed {
    /// The object, by its place.
    pub x: u32,
    /// The operation of the object's type.
    pub k: Operation,
}
