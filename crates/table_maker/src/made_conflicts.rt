//! Conflict tables of just the pairs of operations that have to conflict.

ghost use Rattle.std.specs.Prelude.{◌≡◌, ◌↔◌, ◌⊎◌, ◌<◌, ℕ, true, length};
ghost use Rattle.type_table.specs.ConflictTable.{conflicts, IsSquare};
ghost use Rattle.table_checker.specs.Checked.{condition_of};
ghost use Rattle.table_maker.specs.MadeConflicts.{FailsSomewhere, AddsFailing, AreMadeConflicts};

use declared_types::TypeFile;
use table_checker::{Condition, condition_of, first_failing_state};
use type_table::{ConflictTable, TableKind};

/// The pairs of operations whose condition for a kind of recovery fails at some state of the file's
/// set.
pub fn made_conflicts(kind: TableKind, file: &TypeFile) -> ConflictTable
    ensures { AreMadeConflicts (condition_of kind) file.now result }
{
    let condition = condition_of(kind);
    let ops = file.table.op_count();
    let mut table = ConflictTable::new(ops);
    for p in 0..ops {
        add_failing(&mut table, condition, file, p);
    }
    table
}

/// Adds the pairs of a requested operation that fail somewhere.
fn add_failing(table: &mut ConflictTable, condition: Condition, file: &TypeFile, p: u8)
    requires square { IsSquare (length file.now.table.ops) table.old }
    requires requested { p < length file.now.table.ops }
    ensures square { IsSquare (length file.now.table.ops) table.new }
    ensures pairs { AddsFailing condition file.now p (length file.now.table.ops) table.old table.new }
{
    for q in 0..file.table.op_count() {
        add_if_failing(table, condition, file, p, q);
    }
}

/// Adds a pair that fails somewhere.
fn add_if_failing(table: &mut ConflictTable, condition: Condition, file: &TypeFile, p: u8, q: u8)
    requires square { IsSquare (length file.now.table.ops) table.old }
    requires requested { p < length file.now.table.ops }
    requires held { q < length file.now.table.ops }
    ensures square { IsSquare (length file.now.table.ops) table.new }
    ensures pairs { (a b : ℕ) →
        (conflicts table.new a b ≡ true) ↔ ((conflicts table.old a b ≡ true) ⊎ ((a ≡ p) × (b ≡ q) × FailsSomewhere condition file.now p q)) }
{
    if fails_somewhere(condition, file, p, q) {
        table.set(p, q);
    }
}

/// Whether a pair fails at some state of the set.
fn fails_somewhere(condition: Condition, file: &TypeFile, p: u8, q: u8) -> bool
    requires requested { p < length file.now.table.ops }
    requires held { q < length file.now.table.ops }
    ensures { (result ≡ true) ↔ FailsSomewhere condition file.now p q }
{
    first_failing_state(condition, file, p, q).is_some()
}
