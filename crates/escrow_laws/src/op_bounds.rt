ghost use Rattle.std.specs.Prelude.{◌≡◌, ◌<◌, ◌++◌, Some, length, [], ◌∷◌, slice_get};
ghost use Rattle.type_table.specs.Limits.{most_ops};

use crate::bounded::Bounded;
use std::marker::Model;
use type_table::MOST_OPS;

/// The operations of a numeric type, by their numbers, with their bounds: at most 64. It takes no memory.
///
/// Contracts see it as their list.
#[derive(Drop)]
pub struct OpBounds {
    ops: [Bounded; MOST_OPS],
    count: u8,
}

impl Model for OpBounds {
    ghost use Rattle.std.specs.Prelude.{◌≤◌, List, take};
    ghost use Rattle.type_table.specs.Limits.{most_ops};
    ghost use Rattle.escrow_laws.specs.declared.bounded.Bounded.{Bounded as BoundedValue};

    ghost Value = { List BoundedValue };

    ghost view = { λ a. take a.count a.ops };

    ghost invariant = { λ a. a.count ≤ most_ops };
}

impl OpBounds {
    /// Those of no operation.
    pub fn none() -> OpBounds
        ensures { result ≡ [] }
    {
        OpBounds {
            ops: [Bounded::nowhere(); MOST_OPS],
            count: 0,
        }
    }

    /// Equal ones. It takes no memory.
    pub fn copy(&self) -> OpBounds
        ensures { result ≡ self.now }
    {
        OpBounds {
            ops: self.ops,
            count: self.count,
        }
    }

    /// Adds the bounds of one more operation.
    pub fn push(&mut self, op: Bounded)
        requires { length self.old < most_ops }
        ensures { self.new ≡ self.old ++ op ∷ [] }
    {
        self.ops[usize::from(self.count)] = op;
        self.count += 1;
    }

    /// All of them.
    pub fn as_slice(&self) -> &[Bounded]
        ensures { result.now ≡ self.now }
    {
        &self.ops[..usize::from(self.count)]
    }
}
