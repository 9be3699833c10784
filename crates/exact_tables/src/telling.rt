//! Lists of operations that distinguish two states.

ghost use Rattle.std.specs.Prelude.{◌≡◌, ◌↔◌, ◌+◌, ◌<◌, ℕ, true, length, IfOk, IfSome, MatchOption, Option, Some};
ghost use Rattle.type_table.specs.Run.{Looks};
ghost use Rattle.exact_tables.specs.Distances.{AreDistances, distance, distance_to};
ghost use Rattle.exact_tables.specs.Nearer.{LeadsNearer, IsNearer, IsFirstNearer};
ghost use Rattle.exact_tables.specs.Tell.{IsDistinguishing};

use crate::distances::Distances;
use std::alloc::{AllocError, Global};
use type_table::{TypeTable, steps_within};

/// An operation, and the states to which it leads from two states; from the second it may lead nowhere.
#[derive(Clone, Copy)]
struct Step {
    op: u8,
    first: u16,
    second: Option<u16>,
}

/// A list of operations that is legal from s and not from t, or None where s looks like t. No shorter
/// list is legal from s alone, and none as long that is comes before it in ascending order.
pub fn distinguish(
    alloc: Global,
    distances: &Distances,
    table: &TypeTable,
    s: u16,
    t: u16,
) -> Result<Option<Vec<u8>>, AllocError>
    requires distances { AreDistances table.now distances.now }
    requires first { s < table.now.states }
    requires second { t < table.now.states }
    ensures { IfOk result (λ list. MatchOption list
        (Looks table.now (Some s) (Some t))
        (λ w. IsDistinguishing table.now (Some s) (Some t) w.items)) }
{
    steps_within();
    let Some(far) = distances.between(s, t) else {
        return Ok(None);
    };
    let mut list = Vec::new(alloc);
    let mut first = s;
    let mut second = t;
    for done in 0..far {
        let step = first_nearer(distances, table, first, second, far - done);
        list.push(step.op)?;
        let Some(after) = step.second else {
            return Ok(Some(list));
        };
        first = step.first;
        second = after;
    }
    Ok(Some(list))
}

/// The first operation that leads two states which are so far apart to such as are nearer by one.
fn first_nearer(distances: &Distances, table: &TypeTable, s: u16, t: u16, far: u32) -> Step
    requires distances { AreDistances table.now distances.now }
    requires first { s < table.now.states }
    requires second { t < table.now.states }
    requires far { distance distances.now s t ≡ Some far }
    requires some { 0 < far }
    ensures { IsFirstNearer table.now distances.now far s t result }
{
    steps_within();
    for k in 0..table.op_count() {
        if let Some(step) = nearer(distances, table, s, t, far, k) {
            return step;
        }
    }
    Step {
        op: 0,
        first: s,
        second: None,
    }
}

/// The step of an operation, where it leads to states that are nearer by one.
fn nearer(distances: &Distances, table: &TypeTable, s: u16, t: u16, far: u32, k: u8) -> Option<Step>
    requires distances { AreDistances table.now distances.now }
    requires first { s < table.now.states }
    requires second { t < table.now.states }
    requires operation { k < length table.now.ops }
    requires some { 0 < far }
    ensures { MatchOption result
        (LeadsNearer table.now distances.now far s t k → ⊥)
        (λ step. (step.op ≡ k) × IsNearer table.now distances.now far s t step) }
{
    let first = table.next(s, k)?;
    let second = table.next(t, k);
    let near = distance_to(distances, table, first, second)?;
    if near != far - 1 {
        return None;
    }
    Some(Step {
        op: k,
        first,
        second,
    })
}

/// How far s is from t, where t is there: where nothing is, the empty list distinguishes s from it.
fn distance_to(distances: &Distances, table: &TypeTable, s: u16, t: Option<u16>) -> Option<u32>
    requires distances { AreDistances table.now distances.now }
    requires first { s < table.now.states }
    requires second { IfSome t (λ e. e < table.now.states) }
    ensures { result ≡ distance_to distances.now s t }
{
    match t {
        None => Some(0),
        Some(t) => distances.between(s, t),
    }
}
