//! The search for the first pair of operations and state that fails, one after another.

ghost use Rattle.std.specs.Prelude.{◌≡◌, ◌<◌, ◌↔◌, ℕ, true, not, ◌&&◌, length, MatchOption};
ghost use Rattle.equi_cert.specs.Relation.{relates};
ghost use Rattle.type_table.specs.StateSet.{has};
ghost use Rattle.table_checker.specs.Condition.{passes, fails_at, AreInside, PassesEverywhere, IsFirstFailure};
ghost use Rattle.table_checker.specs.Scan.{PairPasses, IsFirstState, RowPasses, IsFirstHeld};

use crate::condition::{Condition, passes};
use declared_types::TypeFile;
use type_table::ConflictTable;

/// A requested operation p, a held one q, and a state s.
#[derive(Clone, Copy, Debug, PartialEq, Eq)]
pub struct Triple {
    pub p: u8,
    pub q: u8,
    pub s: u16,
}

/// The first failing triple in ascending order.
pub fn first_failure(
    condition: Condition,
    file: &TypeFile,
    conflicts: &ConflictTable,
) -> Option<Triple>
    requires { length conflicts.now ≡ length file.now.table.ops }
    ensures { MatchOption result
        (PassesEverywhere condition file.now conflicts.now)
        (λ f. IsFirstFailure condition file.now conflicts.now f.p f.q f.s) }
{
    for p in 0..file.table.op_count() {
        if let Some(triple) = first_failure_of(condition, file, conflicts, p) {
            return Some(triple);
        }
    }
    None
}

/// Whether each pair outside the conflict table passes at each state of the set.
pub fn passes_everywhere(condition: Condition, file: &TypeFile, conflicts: &ConflictTable) -> bool
    requires { length conflicts.now ≡ length file.now.table.ops }
    ensures { (result ≡ true) ↔ PassesEverywhere condition file.now conflicts.now }
{
    first_failure(condition, file, conflicts).is_none()
}

/// The first failing held operation and state of a requested one.
fn first_failure_of(
    condition: Condition,
    file: &TypeFile,
    conflicts: &ConflictTable,
    p: u8,
) -> Option<Triple>
    requires fits { length conflicts.now ≡ length file.now.table.ops }
    requires requested { p < length file.now.table.ops }
    ensures { MatchOption result
        (RowPasses condition file.now conflicts.now p)
        (λ f. (f.p ≡ p) × IsFirstHeld condition file.now conflicts.now p f.q f.s) }
{
    for q in 0..file.table.op_count() {
        if !conflicts.conflicts(p, q) {
            if let Some(s) = first_failing_state(condition, file, p, q) {
                return Some(Triple { p, q, s });
            }
        }
    }
    None
}

/// The first state of the set at which the pair doesn't pass.
pub fn first_failing_state(condition: Condition, file: &TypeFile, p: u8, q: u8) -> Option<u16>
    requires requested { p < length file.now.table.ops }
    requires held { q < length file.now.table.ops }
    ensures { MatchOption result (PairPasses condition file.now p q) (IsFirstState condition file.now p q) }
{
    for s in 0..file.table.states() {
        if fails_in_set(condition, file, p, q, s) {
            return Some(s);
        }
    }
    None
}

/// Whether the state is of the set and the pair doesn't pass there.
fn fails_in_set(condition: Condition, file: &TypeFile, p: u8, q: u8, s: u16) -> bool
    requires { AreInside file.now.table p q s }
    ensures { result ≡ (has file.now.reach s && not (passes condition file.now.table (relates file.now.relation) p q s)) }
{
    file.reach.has(s) && !passes(condition, file, p, q, s)
}
