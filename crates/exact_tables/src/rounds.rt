//! The rounds of the search for distances: what one operation distinguishes first, and then, round by
//! round, the pairs from which an operation leads to a pair of the round before.

ghost use Rattle.std.specs.Prelude.{◌≡◌, ◌↔◌, ◌+◌, ◌*◌, ◌<◌, ◌≤◌, ℕ, [], ◌∷◌, true, length, All, IfOk, OnOk, Some};
ghost use Rattle.type_table.specs.Table.{next};
ghost use Rattle.exact_tables.specs.Predecessors.{ArePredecessors, IsAmong};
ghost use Rattle.exact_tables.specs.Search.{Strikes, IsFound, IsToldAtOnce, LeadsBelow, LeadsAmong, IsOver, taken};
ghost use Rattle.exact_tables.specs.Tell.{Tells};

use crate::predecessors::Predecessors;
use crate::search::Search;
use std::alloc::{AllocError, Global};
use type_table::{TypeTable, steps_within};

/// Rounds, until one finds no pair. Each finds a pair but the last, so there are no more of them than
/// pairs.
pub fn all_rounds(alloc: Global, table: &TypeTable) -> Result<Search, AllocError>
    ensures { IfOk result (IsOver table.now) }
{
    steps_within();
    let states = table.states();
    let predecessors = Predecessors::new(alloc, table)?;
    let mut search = Search::new(alloc, states)?;
    first_round(table, &mut search)?;
    for n in 1..states as u32 * states as u32 + 1 {
        if search.is_over() {
            return Ok(search);
        }
        next_round(alloc, table, &predecessors, &mut search, n + 1)?;
    }
    Ok(search)
}

/// Gives 1 to each pair that an operation alone distinguishes.
fn first_round(table: &TypeTable, search: &mut Search) -> Result<(), AllocError>
    requires { search.old.states ≡ table.now.states }
    ensures { OnOk result (Strikes 1 (IsToldAtOnce table.now) search.old search.new) }
{
    for s in 0..table.states() {
        first_of(table, search, s)?;
    }
    Ok(())
}

/// The same for the pairs of one first state.
fn first_of(table: &TypeTable, search: &mut Search, s: u16) -> Result<(), AllocError>
    requires fits { search.old.states ≡ table.now.states }
    requires state { s < table.now.states }
    ensures { OnOk result (Strikes 1 (λ a b. (a ≡ s) × IsToldAtOnce table.now a b) search.old search.new) }
{
    for t in 0..table.states() {
        if is_told_at_once(table, s, t) {
            search.strike(s, t, 1)?;
        }
    }
    Ok(())
}

/// Whether an operation is legal in s and not in t.
fn is_told_at_once(table: &TypeTable, s: u16, t: u16) -> bool
    requires first { s < table.now.states }
    requires second { t < table.now.states }
    ensures { (result ≡ true) ↔ IsToldAtOnce table.now s t }
{
    for k in 0..table.op_count() {
        if table.next(s, k).is_some() && table.next(t, k).is_none() {
            return true;
        }
    }
    false
}

/// Gives n to each pair that has no number, and from which an operation leads to a pair that was found
/// in the round before.
fn next_round(
    alloc: Global,
    table: &TypeTable,
    predecessors: &Predecessors,
    search: &mut Search,
    n: u32,
) -> Result<(), AllocError>
    requires fits { search.old.states ≡ table.now.states }
    requires steps { ArePredecessors table.now predecessors.now }
    requires pairs { (s t : ℕ) → IsFound search.old s t → (s < table.now.states) × (t < table.now.states) }
    requires some { 0 < n }
    ensures { OnOk result (Strikes n (LeadsAmong table.now search.old.found (length search.old.found)) (taken search.old) search.new) }
{
    let before = search.take_found(alloc);
    for position in 0..before.len() {
        let pair = before[position];
        strike_before(table, predecessors, search, pair.0, pair.1, n)?;
    }
    Ok(())
}

/// Gives n to each pair from which an operation leads to the pair (s, t).
fn strike_before(
    table: &TypeTable,
    predecessors: &Predecessors,
    search: &mut Search,
    s: u16,
    t: u16,
    n: u32,
) -> Result<(), AllocError>
    requires fits { search.old.states ≡ table.now.states }
    requires steps { ArePredecessors table.now predecessors.now }
    requires first { s < table.now.states }
    requires second { t < table.now.states }
    requires some { 0 < n }
    ensures { OnOk result (Strikes n (LeadsBelow table.now s t (length table.now.ops)) search.old search.new) }
{
    for k in 0..table.op_count() {
        let firsts = predecessors.of(table, s, k);
        let seconds = predecessors.of(table, t, k);
        strike_all(search, firsts, seconds, n)?;
    }
    Ok(())
}

/// Gives n to each pair of one of the first states and one of the second ones.
fn strike_all(
    search: &mut Search,
    firsts: &[u16],
    seconds: &[u16],
    n: u32,
) -> Result<(), AllocError>
    requires firsts { All (λ s. s < search.old.states) firsts.now }
    requires seconds { All (λ t. t < search.old.states) seconds.now }
    requires some { 0 < n }
    ensures { OnOk result (Strikes n (λ a b. IsAmong firsts.now a × IsAmong seconds.now b) search.old search.new) }
{
    for s in firsts {
        strike_with(search, *s, seconds, n)?;
    }
    Ok(())
}

/// Gives n to each pair of the state s and one of the second states.
fn strike_with(search: &mut Search, s: u16, seconds: &[u16], n: u32) -> Result<(), AllocError>
    requires first { s < search.old.states }
    requires seconds { All (λ t. t < search.old.states) seconds.now }
    requires some { 0 < n }
    ensures { OnOk result (Strikes n (λ a b. (a ≡ s) × IsAmong seconds.now b) search.old search.new) }
{
    for t in seconds {
        search.strike(s, *t, n)?;
    }
    Ok(())
}
