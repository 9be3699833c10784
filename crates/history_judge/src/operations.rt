ghost use Rattle.std.specs.Prelude.{◌≡◌, [], ◌∷◌, ◌++◌, length, take, OnOk, OnErr};

use crate::executed::Executed;
use std::alloc::{AllocError, Global};
use std::marker::Model;

/// The operations of one transaction that survive, in the order in which they were executed. Contracts see the
/// list of them.
#[derive(Drop)]
pub struct Operations {
    list: Vec<Executed>,
}

impl Model for Operations {
    ghost use Rattle.std.specs.Prelude.{List};
    ghost use Rattle.history_judge.specs.declared.executed.Executed.{Executed};

    ghost Value = { List Executed };

    ghost view = { λ a. a.list.items };
}

impl Operations {
    /// None yet. It takes no memory.
    pub(crate) fn new(alloc: Global) -> Operations
        ensures { result ≡ [] }
    {
        Operations {
            list: Vec::new(alloc),
        }
    }

    /// All of them, in order.
    pub fn as_slice(&self) -> &[Executed]
        ensures { result.now ≡ self.now }
    {
        self.list.as_slice()
    }

    /// How many there are.
    pub fn len(&self) -> usize
        ensures { result ≡ length self.now }
    {
        self.list.len()
    }

    /// One more at the end.
    pub(crate) fn push(&mut self, operation: Executed) -> Result<(), AllocError>
        ensures ok { OnOk result (self.new ≡ self.old ++ operation ∷ []) }
        ensures err { OnErr result (self.new ≡ self.old) }
    {
        self.list.push(operation)?;
        Ok(())
    }

    /// Keeps the first n, or all where there are fewer. It takes no memory.
    pub(crate) fn truncate(&mut self, n: usize)
        ensures { self.new ≡ take n self.old }
    {
        self.list.truncate(n);
    }
}
