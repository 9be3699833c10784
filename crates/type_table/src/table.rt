ghost use Rattle.std.specs.Prelude.{◌≡◌, ◌<◌, ℕ, true, Some, None, List, length, All, MatchResult, IfOk, IfSome};
ghost use Rattle.std.specs.List.{list_all, position};
ghost use Rattle.std.specs.Str.{bytes_eq};
ghost use Rattle.type_table.specs.declared.op.Op.{Op as OpValue};
ghost use Rattle.type_table.specs.Run.{run};
ghost use Rattle.type_table.specs.Op.{has_twin};
ghost use Rattle.type_table.specs.Counts.{has_counts, is_inside};

use crate::limits::{MOST_OPS, MOST_STATES};
use crate::name::Name;
use crate::op::Op;
use crate::operation::Operation;
use crate::table_error::TableError;
use std::alloc::{AllocError, Global};
use std::marker::Model;

/// A type of shared objects: states, an initial state, operations, and the next state of each
/// state under each operation that is legal in it.
#[derive(Drop)]
pub struct TypeTable {
    name: Name,
    states: u16,
    initial: u16,
    ops: Vec<Op>,
    steps: Vec<Option<u16>>,
}

impl Model for TypeTable {
    ghost use Rattle.type_table.specs.Table.{Table, IsTable};

    ghost Value = { Table };

    ghost view = { λ a. record { name = a.name; states = a.states; initial = a.initial; ops = a.ops.items; steps = a.steps.items } };

    ghost invariant = { λ a. IsTable (record { name = a.name; states = a.states; initial = a.initial; ops = a.ops.items; steps = a.steps.items }) };
}

impl TypeTable {
    ghost use Rattle.type_table.specs.Table.{Table, IsTable, AreSteps, table_at, table_fault, next, first_op, is_same_call};

    /// A table of these parts. `steps` has the entry of state s and operation k at
    /// `s * ops.len() + k`.
    ///
    /// # Errors
    ///
    /// The first that holds of `BadCount`, `BadInitial`, `BadStep` and `TwiceOp`.
    #[tactic(auto, unfolding(crate::specs::Table::table_fault))]
    pub fn new(
        name: Name,
        states: u16,
        initial: u16,
        ops: Vec<Op>,
        steps: Vec<Option<u16>>,
    ) -> Result<TypeTable, TableError>
        ensures { let parts : Table = record { name = name; states = states; initial = initial; ops = ops.items; steps = steps.items } in
            MatchResult result (λ t. (table_fault parts ≡ None) × (t ≡ parts)) (λ e. table_fault parts ≡ Some e) }
    {
        if !has_counts(states, ops.len(), steps.len()) {
            return Err(TableError::BadCount);
        }
        if initial >= states {
            return Err(TableError::BadInitial);
        }
        if !are_inside(states, &steps) {
            return Err(TableError::BadStep);
        }
        if has_twin(&ops) {
            return Err(TableError::TwiceOp);
        }
        Ok(TypeTable {
            name,
            states,
            initial,
            ops,
            steps,
        })
    }

    /// An equal table.
    pub fn copy(&self, alloc: Global) -> Result<TypeTable, AllocError>
        ensures { IfOk result (λ t. t ≡ self.now) }
    {
        let ops = Vec::from_slice(alloc, &self.ops)?;
        let steps = Vec::from_slice(alloc, &self.steps)?;
        Ok(TypeTable {
            name: self.name,
            states: self.states,
            initial: self.initial,
            ops,
            steps,
        })
    }

    /// It begins at this state from now on.
    pub fn begin_at(&mut self, state: u16)
        requires { state < self.old.states }
        ensures { self.new ≡ table_at self.old state }
    {
        self.initial = state;
    }

    /// Whether it is the other table, beginning at this state. What differs most is looked at first.
    pub fn is_at(&self, other: &TypeTable, state: u16) -> bool
        ensures { result ≡ true → self.now ≡ table_at other.now state }
    {
        if self.initial != state || self.states != other.states {
            return false;
        }
        if self.name != other.name || self.ops != other.ops {
            return false;
        }
        self.steps == other.steps
    }

    /// Whether it is the same table as another.
    pub fn is_same(&self, other: &TypeTable) -> bool
        ensures { result ≡ true → self.now ≡ other.now }
    {
        self.is_at(other, other.initial)
    }

    /// The name of the type.
    pub fn name(&self) -> Name
        ensures { result ≡ self.now.name }
    {
        self.name
    }

    /// The number of states, 1 to 1,024, and what else is known of each table.
    pub fn states(&self) -> u16
        ensures exact { result ≡ self.now.states }
        ensures table { IsTable self.now }
    {
        self.states
    }

    /// The initial state, which is one of the table's.
    pub fn initial(&self) -> u16
        ensures exact { result ≡ self.now.initial }
        ensures inside { result < self.now.states }
    {
        self.initial
    }

    /// The operations, 1 to 64, by their numbers.
    pub fn ops(&self) -> &[Op]
        ensures { result.now ≡ self.now.ops }
    {
        &self.ops
    }

    /// The number of operations, 1 to 64, and what else is known of each table.
    pub fn op_count(&self) -> u8
        ensures exact { result ≡ length self.now.ops }
        ensures table { IsTable self.now }
    {
        self.ops.len() as u8
    }

    /// The steps. The entry of state s and operation k is at `s * ops().len() + k`, and is None where
    /// k isn't legal in s.
    pub fn steps(&self) -> &[Option<u16>]
        ensures exact { result.now ≡ self.now.steps }
        ensures next { AreSteps self.now result.now }
    {
        &self.steps
    }

    /// The next state of state s under operation k, where k is legal in s.
    pub fn next(&self, s: u16, k: u8) -> Option<u16>
        requires state { s < self.now.states }
        requires operation { k < length self.now.ops }
        ensures exact { result ≡ next self.now s k }
        ensures inside { IfSome result (λ t. t < self.now.states) }
    {
        let place = s as usize * self.ops.len() + k as usize;
        self.steps[place]
    }

    /// The state after a list of operations from state s, where the list is legal.
    #[tactic(auto, using(crate::proofs::Runs::run_stuck))]
    pub fn run(&self, s: u16, ks: &[u8]) -> Option<u16>
        requires state { s < self.now.states }
        requires operations { All (λ k. k < length self.now.ops) ks.now }
        ensures { result ≡ run self.now (Some s) ks.now }
    {
        let mut state = s;
        for k in ks {
            state = self.next(state, *k)?;
        }
        Some(state)
    }

    /// The place of an operation, which is its number: an operation of a table has no amount.
    pub fn column(&self, k: Operation) -> u8
        requires { k < length self.now.ops }
        ensures { result ≡ k }
    {
        // (read for what is known of a table)
        let _ops = &self.ops;
        k.place()
    }

    /// The least operation whose call has this name. Its number is the number of the call.
    pub fn first_op(&self, name: &[u8]) -> Option<u8>
        ensures { result ≡ first_op self.now name.now }
    {
        if name.is_empty() {
            return None;
        }
        let place = place_of_call(&self.ops, name)?;
        Some(place as u8)
    }

    /// Whether two operations are of one call.
    pub fn same_call(&self, k: u8, c: u8) -> bool
        requires first { k < length self.now.ops }
        requires second { c < length self.now.ops }
        ensures { result ≡ is_same_call self.now k c }
    {
        let first = &self.ops[k as usize];
        let second = &self.ops[c as usize];
        first.call == second.call
    }
}

fn has_counts(states: u16, ops: usize, steps: usize) -> bool
    ensures { result ≡ has_counts states ops steps }
{
    1 <= states
        && states <= MOST_STATES
        && 1 <= ops
        && ops <= MOST_OPS
        && steps == states as usize * ops
}

fn are_inside(states: u16, steps: &[Option<u16>]) -> bool
    ensures { result ≡ list_all (is_inside states) steps.now }
{
    steps.iter().all(|next| match next {
        None => true,
        Some(next) => *next < states,
    })
}

fn has_twin(ops: &[Op]) -> bool
    ensures { result ≡ has_twin ops.now }
{
    for (i, op) in ops.iter().enumerate() {
        if ops[i + 1..].contains(op) {
            return true;
        }
    }
    false
}

fn place_of_call(ops: &[Op], name: &[u8]) -> Option<usize>
    ensures { result ≡ position (λ (o : OpValue). bytes_eq o.call name.now) ops.now }
{
    ops.iter().position(|op| op.call.as_bytes() == name)
}
