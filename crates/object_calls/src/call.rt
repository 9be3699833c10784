ghost use Rattle.std.specs.Prelude.{◌≡◌, true};

use type_table::{Name, Operation};

/// A call of a type.
#[derive(Clone, Copy, Debug, PartialEq, Eq)]
pub struct Call {
    /// Its least operation, which is its number.
    pub first: Operation,
    /// Has the bit of the place of each of its operations.
    pub operations: u64,
}

/// A call with its name.
#[derive(Clone, Copy)]
pub struct NamedCall {
    /// The name.
    pub name: Name,
    /// Its number and its operations.
    pub call: Call,
}

impl NamedCall {
    /// Whether it is the same.
    pub(crate) fn is_same(self, other: NamedCall) -> bool
        ensures { result ≡ true → self ≡ other }
    {
        self.name == other.name
            && self.call.first == other.call.first
            && self.call.operations == other.call.operations
    }
}

/// Whether calls are the same as others.
pub(crate) fn are_same(calls: &[NamedCall], others: &[NamedCall]) -> bool
    ensures { result ≡ true → calls.now ≡ others.now }
{
    if calls.len() != others.len() {
        return false;
    }
    for i in 0..calls.len() {
        if !calls[i].is_same(others[i]) {
            return false;
        }
    }
    true
}
