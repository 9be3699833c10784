ghost use Rattle.std.specs.Prelude.{◌≡◌};

use type_table::Operation;

/// An operation in an object's log.
#[derive(Clone, Copy, Debug, PartialEq, Eq)]
pub struct LogEntry {
    /// The transaction that executed it.
    pub by: u32,
    /// The operation.
    pub op: Operation,
    /// Whether its transaction has committed. An entry that isn't done is open.
    pub done: bool,
}

impl LogEntry {
    ghost use Rattle.object_trait.specs.Meaning.{is_open_of};

    /// Whether it is an open entry of t.
    pub fn is_open_of(self, t: u32) -> bool
        ensures { result ≡ is_open_of t self }
    {
        self.by == t && !self.done
    }
}
