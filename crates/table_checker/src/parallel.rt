//! The search for the first triple that fails, by all processors.

ghost use Rattle.std.specs.Prelude.{◌≡◌, ◌<◌, ◌*◌, ◌+◌, length, MatchOption, IsSome};
ghost use Rattle.std.specs.List.{list_any, range_with_len};
ghost use Rattle.table_checker.specs.Condition.{fails_in_set, PassesEverywhere, IsFirstFailure};
ghost use Rattle.table_checker.specs.Scan.{requested_of, held_of, pair_fails, NoneBelow, IsFirstBelow};

use crate::condition::Condition;
use crate::scan::{Triple, first_failing_state};
use declared_types::TypeFile;
use rayon::prelude::*;
use std::thread::Threads;
use type_table::{ConflictTable, TypeTable};

/// How many triples are worth a thread of their own.
const LEAST_TRIPLES: usize = 16_384;

/// A requested operation p and a held one q.
#[derive(Clone, Copy)]
struct Pair {
    p: u8,
    q: u8,
}

/// The first failing triple in ascending order: the first state at which the first pair of all that
/// fails anywhere does so.
pub fn first_failure_parallel(
    rt: &(impl Threads + Sync),
    condition: Condition,
    file: &TypeFile,
    conflicts: &ConflictTable,
) -> Option<Triple>
    requires { length conflicts.now ≡ length file.now.table.ops }
    ensures { MatchOption result
        (PassesEverywhere condition file.now conflicts.now)
        (λ f. IsFirstFailure condition file.now conflicts.now f.p f.q f.s) }
{
    let number = first_failing_pair(rt, condition, file, conflicts)?;
    let Pair { p, q } = pair_of(&file.table, number);
    let s = first_failing_state(condition, file, p, q)?;
    Some(Triple { p, q, s })
}

/// The number of the first pair that fails at some state.
fn first_failing_pair(
    rt: &(impl Threads + Sync),
    condition: Condition,
    file: &TypeFile,
    conflicts: &ConflictTable,
) -> Option<u16>
    requires { length conflicts.now ≡ length file.now.table.ops }
    ensures { let count = length file.now.table.ops * length file.now.table.ops in
        MatchOption result
        (NoneBelow (pair_fails condition file.now conflicts.now) count)
        (IsFirstBelow (pair_fails condition file.now conflicts.now) count) }
{
    let count = pair_count(&file.table);
    let least = LEAST_TRIPLES / file.table.states() as usize;
    (0..count).into_par_iter().with_min_len(least).find_first(
        rt,
        |number: &u16| -> bool
            requires { (length conflicts.now ≡ length file.now.table.ops)
                × (number.now < length file.now.table.ops * length file.now.table.ops) }
            ensures { result ≡ pair_fails condition file.entry.now conflicts.entry.now number.now }
        { pair_fails(condition, file, conflicts, *number) },
    )
}

/// How many pairs of operations a table has.
fn pair_count(table: &TypeTable) -> u16
    ensures { result ≡ length table.now.ops * length table.now.ops }
{
    let ops = table.op_count() as u16;
    ops * ops
}

/// The pair of a number.
fn pair_of(table: &TypeTable, number: u16) -> Pair
    requires { number < length table.now.ops * length table.now.ops }
    ensures requested { result.p ≡ requested_of table.now number }
    ensures held { result.q ≡ held_of table.now number }
    ensures requested_inside { result.p < length table.now.ops }
    ensures held_inside { result.q < length table.now.ops }
{
    let ops = table.op_count() as u16;
    Pair {
        p: (number / ops) as u8,
        q: (number % ops) as u8,
    }
}

/// Whether the pair of a number is outside the conflict table and fails at some state of the set.
#[tactic(auto, unfolding(crate::specs::Scan::pair_fails))]
fn pair_fails(condition: Condition, file: &TypeFile, conflicts: &ConflictTable, number: u16) -> bool
    requires fits { length conflicts.now ≡ length file.now.table.ops }
    requires inside { number < length file.now.table.ops * length file.now.table.ops }
    ensures { result ≡ pair_fails condition file.now conflicts.now number }
{
    let Pair { p, q } = pair_of(&file.table, number);
    !conflicts.conflicts(p, q) && fails_somewhere(condition, file, p, q)
}

/// Whether the pair fails at some state of the set.
fn fails_somewhere(condition: Condition, file: &TypeFile, p: u8, q: u8) -> bool
    requires requested { p < length file.now.table.ops }
    requires held { q < length file.now.table.ops }
    ensures { result ≡ list_any (fails_in_set condition file.now p q) (range_with_len 0 file.now.table.states) }
{
    first_failing_state(condition, file, p, q).is_some()
}
