ghost use Rattle.std.specs.Prelude.{◌≡◌, ◌↔◌, ◌+◌, ◌<◌, ◌++◌, ◌∷◌, [], ℕ, All, IfOk, OnOk, Some, length, set, slice_index_or};
ghost use Rattle.type_table.specs.Table.{next};
ghost use Rattle.exact_tables.specs.Predecessors.{ArePredecessors, HaveSteps, IsAmong, lists_of};

use std::alloc::{AllocError, Global};
use type_table::{TypeTable, steps_within};

/// The states from which each operation of a table leads to each state.
#[derive(Drop)]
pub struct Predecessors {
    /// A list for each state and operation: that of state t and operation k is at `t * ops + k`.
    lists: Vec<Vec<u16>>,
    ops: u8,
}

impl Predecessors {
    /// The predecessors of the states of a table.
    pub fn new(alloc: Global, table: &TypeTable) -> Result<Predecessors, AllocError>
        ensures { IfOk result (ArePredecessors table.now) }
    {
        let states = table.states();
        let ops = table.op_count();
        let mut lists = empty_lists(alloc, table)?;
        for s in 0..states {
            put_state(table, &mut lists, s)?;
        }
        Ok(Predecessors { lists, ops })
    }

    /// The states from which the operation k leads to the state t.
    pub fn of(&self, table: &TypeTable, t: u16, k: u8) -> &[u16]
        requires steps { ArePredecessors table.now self.now }
        requires state { t < table.now.states }
        requires operation { k < length table.now.ops }
        ensures exact { (s : ℕ) → IsAmong result.now s ↔ (next table.now s k ≡ Some t) }
        ensures inside { All (λ s. s < table.now.states) result.now }
    {
        steps_within();
        &self.lists[t as usize * self.ops as usize + k as usize]
    }
}

/// An empty list for each state and operation.
fn empty_lists(alloc: Global, table: &TypeTable) -> Result<Vec<Vec<u16>>, AllocError>
    ensures { IfOk result (λ lists. HaveSteps table.now (λ _ _. ⊥) (lists_of lists.items)) }
{
    let mut lists = Vec::new(alloc);
    for _ in 0..table.states() as usize * table.op_count() as usize {
        lists.push(Vec::new(alloc))?;
    }
    Ok(lists)
}

/// Puts a state into the list of each operation that is legal in it.
fn put_state(table: &TypeTable, lists: &mut [Vec<u16>], s: u16) -> Result<(), AllocError>
    requires lists { HaveSteps table.now (λ a _. a < s) (lists_of lists.old) }
    requires state { s < table.now.states }
    ensures { OnOk result (HaveSteps table.now (λ a _. a < s + 1) (lists_of lists.new)) }
{
    let ops = table.op_count();
    for k in 0..ops {
        if let Some(t) = table.next(s, k) {
            put(lists, t as usize * ops as usize + k as usize, s)?;
        }
    }
    Ok(())
}

/// Puts a state into the list at a position.
fn put(lists: &mut [Vec<u16>], position: usize, s: u16) -> Result<(), AllocError>
    requires { position < length lists.old }
    ensures { OnOk result (lists_of lists.new ≡ set (lists_of lists.old) position (slice_index_or (lists_of lists.old) position [] ++ s ∷ [])) }
{
    lists[position].push(s)?;
    Ok(())
}
