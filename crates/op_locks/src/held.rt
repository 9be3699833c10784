/// An operation that a transaction holds.
#[derive(Clone, Copy, Debug, PartialEq, Eq, Default)]
pub struct Held {
    /// The transaction's number.
    pub by: u32,
    /// The operation's number.
    pub op: u8,
}
