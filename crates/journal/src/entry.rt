//! Values that are rows of a table.

ghost use Rattle.std.specs.Prelude.{◌≡◌, ◌<◌, ◌^◌, ◌∷◌, ℕ, pos, true, IfOk, IfSome, OnOk};
ghost use Rattle.sqlite_value.specs.Order.{Row as Columns};
ghost use Rattle.sqlite_value.specs.declared.value.Value.TheVariants.{Int};

use sqlite_value::row::Row;
use std::alloc::{AllocError, Global};

/// A value that is a row of a table, whose rowid is the value's position.
pub trait Entry: Sized {
    /// The row of the value at this position.
    ghost row_at: { ℕ → Self → Columns };

    /// The value that a row says.
    ghost told_by: { Columns → Self };

    /// The value whose row at this position it is, where it is one's.
    ///
    /// # Errors
    ///
    /// Memory was refused.
    fn read(alloc: Global, position: u64, row: &Row) -> Result<Option<Self>, AllocError>
        requires { position < 2 ^ 62 }
        ensures { IfOk result (λ found. IfSome found (λ entry. row.now ≡ row_at position entry)) };

    ghost keyed: { (n : ℕ) (entry : Self) → (rest : Columns) × (row_at n entry ≡ Int (pos n) ∷ rest) };

    ghost read_back: { (n : ℕ) (entry : Self) → told_by (row_at n entry) ≡ entry };
}

/// A value that is written as a row.
pub trait FilledEntry: Entry {
    /// Writes the row of the value at this position over `row`.
    ///
    /// # Errors
    ///
    /// Memory was refused.
    fn fill(&self, position: u64, row: &mut Row) -> Result<(), AllocError>
        requires { position < 2 ^ 62 }
        ensures { OnOk result (row.new ≡ Self.Entry.row_at position self.now) };

    /// Whether it is the same value as another.
    fn is_same(&self, other: &Self) -> bool
        ensures { result ≡ true → self.now ≡ other.now };
}
