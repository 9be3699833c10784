//! The operations of one transaction, run on the states of the objects.

ghost use Rattle.std.specs.Prelude.{◌≡◌, ◌<◌, map, length, Some, IfSome, slice_get};
ghost use Rattle.type_table.specs.Table.{Table};
ghost use Rattle.declared_types.specs.Declarations.{table_of};
ghost use Rattle.serial_order.specs.History.{IsOperation};
ghost use Rattle.history_judge.specs.Replay.{ops_at, AreOperations, AreStates, next_at, is_stopped_at, states_after, stop_after, AreReplayed};

use crate::executed::Executed;
use declared_types::DeclaredType;
use type_table::runs_along;

/// Where a replay stopped: an operation that isn't legal, at the least object that has one.
#[derive(Clone, Copy)]
pub struct Stop {
    /// The object, by its place.
    pub object: u32,
    /// The operation's place among those of its transaction.
    pub place: usize,
}

/// Runs a transaction's operations on the states of the objects, in order. Where one isn't legal it goes on at
/// lower objects alone, and answers the first such one at the least object.
#[inline(always)]
pub fn replay(
    states: &mut Vec<u32>,
    types: &[&DeclaredType],
    operations: &[Executed],
) -> Option<Stop>
    requires states { AreStates (map (λ t. table_of t.now) types.now) states.old.items }
    requires operations { AreOperations (map (λ t. table_of t.now) types.now) operations.now }
    ensures states { AreStates (map (λ t. table_of t.now) types.now) states.new.items }
    ensures replayed { AreReplayed (map (λ t. table_of t.now) types.now) states.old.items operations.now (length operations.now) states.new.items result }
{
    runs_along();
    let mut stop = None;
    for place in 0..operations.len() {
        stop = replay_one(states, types, &operations[place], place, stop);
    }
    stop
}

/// Runs one operation, which has this place among those of its transaction.
#[inline(always)]
fn replay_one(
    states: &mut Vec<u32>,
    types: &[&DeclaredType],
    operation: &Executed,
    place: usize,
    stop: Option<Stop>,
) -> Option<Stop>
    requires states { AreStates (map (λ t. table_of t.now) types.now) states.old.items }
    requires operation { IsOperation (slice_get (map (λ t. table_of t.now) types.now) operation.now.x) operation.now.k }
    ensures states { states.new.items ≡ states_after (map (λ t. table_of t.now) types.now) states.old.items stop operation.now }
    ensures inside { AreStates (map (λ t. table_of t.now) types.now) states.new.items }
    ensures stop { result ≡ stop_after (map (λ t. table_of t.now) types.now) states.old.items stop place operation.now }
{
    if is_stopped_at(stop, operation.x) {
        return stop;
    }
    match next_at(states, types, operation) {
        Some(state) => {
            states[operation.x as usize] = state;
            stop
        }
        None => Some(Stop {
            object: operation.x,
            place,
        }),
    }
}

/// Whether it stopped at this object or at a lower one.
fn is_stopped_at(stop: Option<Stop>, x: u32) -> bool
    ensures { result ≡ is_stopped_at stop x }
{
    match stop {
        Some(stop) => stop.object <= x,
        None => false,
    }
}

/// The next state of the operation's object, where the operation is legal.
#[inline(always)]
fn next_at(states: &Vec<u32>, types: &[&DeclaredType], operation: &Executed) -> Option<u32>
    requires states { AreStates (map (λ t. table_of t.now) types.now) states.now.items }
    requires operation { IsOperation (slice_get (map (λ t. table_of t.now) types.now) operation.now.x) operation.now.k }
    ensures exact { result ≡ next_at (map (λ t. table_of t.now) types.now) states.now.items operation.now }
    ensures there { operation.now.x < length states.now.items }
    ensures inside { IfSome result (λ s. (T : Table) → slice_get (map (λ t. table_of t.now) types.now) operation.now.x ≡ Some T → s < T.states) }
{
    let x = operation.x as usize;
    types[x].next(states[x], operation.k)
}

/// How many of these operations are at the object.
pub fn count_at(operations: &[Executed], object: u32) -> usize
    ensures { result ≡ length (ops_at object operations.now) }
{
    let mut count = 0;
    for operation in operations {
        if operation.x == object {
            count += 1;
        }
    }
    count
}
