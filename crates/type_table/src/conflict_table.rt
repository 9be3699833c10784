ghost use Rattle.std.specs.Prelude.{◌≡◌, ◌≤◌, ◌<◌, ◌==◌, ◌&&◌, ◌||◌, ℕ, true, false, length};
ghost use Rattle.std.specs.Int.{bit_at};
ghost use Rattle.type_table.specs.ConflictTable.{conflicts, IsSquare};
ghost use Rattle.type_table.specs.Limits.{most_ops};

use crate::limits::MOST_OPS;
use std::marker::Model;

/// Which pairs of operations conflict: the first is requested, the second is held.
///
/// Contracts see it as a row for each requested operation, with a cell for each held one.
#[derive(Drop)]
pub struct ConflictTable {
    words: [u64; MOST_OPS],
    ops: u8,
}

impl Model for ConflictTable {
    ghost use Rattle.std.specs.Prelude.{◌≤◌, Bool, List};
    ghost use Rattle.type_table.specs.ConflictTable.{conflict_rows};
    ghost use Rattle.type_table.specs.Limits.{most_ops};

    ghost Value = { List (List Bool) };

    ghost view = { λ a. conflict_rows a.ops a.words };

    ghost invariant = { λ a. a.ops ≤ most_ops };
}

impl ConflictTable {
    /// A table of no pair, for at most 64 operations.
    pub fn new(ops: u8) -> ConflictTable
        requires { ops ≤ most_ops }
        ensures square { IsSquare ops result }
        ensures none { (p q : ℕ) → conflicts result p q ≡ false }
    {
        let words = [0; MOST_OPS];
        ConflictTable { words, ops }
    }

    /// An equal table. It takes no memory.
    pub fn copy(&self) -> ConflictTable
        ensures { result ≡ self.now }
    {
        ConflictTable {
            words: self.words,
            ops: self.ops,
        }
    }

    /// The number of operations, at most 64, and what else is known of each table.
    pub fn ops(&self) -> u8
        ensures exact { result ≡ length self.now }
        ensures square { IsSquare (length self.now) self.now }
    {
        self.ops
    }

    /// Adds the pair of the requested operation p and the held operation q.
    pub fn set(&mut self, p: u8, q: u8)
        requires requested { p < length self.old }
        requires held { q < length self.old }
        ensures square { IsSquare (length self.old) self.new }
        ensures pairs { (a b : ℕ) → conflicts self.new a b ≡ (conflicts self.old a b || (a == p && b == q)) }
    {
        let word = self.words[p as usize];
        self.words[p as usize] = word | 1 << q;
    }

    /// The row of the requested operation p, as a word: it has the bit of each held operation with which p
    /// conflicts.
    pub fn row(&self, p: u8) -> u64
        requires { p < length self.now }
        ensures { (q : ℕ) → q < length self.now → (bit_at result q == 1) ≡ conflicts self.now p q }
    {
        self.words[usize::from(p)]
    }

    /// Whether the requested operation p conflicts with the held operation q.
    pub fn conflicts(&self, p: u8, q: u8) -> bool
        requires requested { p < length self.now }
        requires held { q < length self.now }
        ensures { result ≡ conflicts self.now p q }
    {
        let word = self.words[p as usize];
        word >> q & 1 == 1
    }

    /// Whether it is the same table as another, of as many operations.
    pub fn is_same(&self, other: &ConflictTable) -> bool
        ensures { result ≡ true → self.now ≡ other.now }
    {
        if self.ops != other.ops {
            return false;
        }
        self.words == other.words
    }
}
