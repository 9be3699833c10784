//! The operations of transactions, run one transaction after another.

ghost use Rattle.std.specs.Prelude.{◌≡◌, ◌≤◌, [], map, length, Err, IfOk, OnOk, IfSome, MatchOption};
ghost use Rattle.std.specs.Result.{IsOkAnd};
ghost use Rattle.declared_types.specs.Declarations.{table_of};
ghost use Rattle.history_judge.specs.Replay.{AreOperations, AreStates};
ghost use Rattle.history_judge.specs.SerialRun.{AreInitial, illegal_at, ReplaysNext, ReplaysFrom};

use crate::executed::Executed;
use crate::outcome::{Audit, AuditFault};
use crate::replay::{Stop, count_at, replay};
use declared_types::DeclaredType;
use std::alloc::{AllocError, Global};

/// The place of an operation that isn't legal in the serial order.
#[derive(Clone, Copy)]
pub struct Illegal {
    /// The place of its transaction in the order.
    pub commit_index: usize,
    /// The object, by its place.
    pub object: u32,
    /// Its place among the operations of its transaction at the object.
    pub op_index: usize,
}

/// What is kept of transactions that are run one after another: their order, the states to which they lead, and
/// the first operation that isn't legal, after which nothing is run.
#[derive(Drop)]
pub struct SerialRun {
    order: Vec<u32>,
    states: Vec<u32>,
    illegal: Option<Illegal>,
}

impl SerialRun {
    /// Before the first transaction.
    pub fn new(alloc: Global, types: &[&DeclaredType]) -> Result<SerialRun, AllocError>
        ensures { IfOk result (λ r. (r.order.items ≡ []) × AreInitial (map (λ t. table_of t.now) types.now) r.states.items × (r.illegal ≡ None)) }
    {
        let states = initial_states(alloc, types)?;
        Ok(SerialRun {
            order: Vec::new(alloc),
            states,
            illegal: None,
        })
    }

    /// Runs the operations of t after those of the transactions before it.
    #[inline(always)]
    pub fn take(
        &mut self,
        types: &[&DeclaredType],
        t: u32,
        operations: &[Executed],
    ) -> Result<(), AllocError>
        requires states { AreStates (map (λ t. table_of t.now) types.now) self.old.states.items }
        requires operations { AreOperations (map (λ t. table_of t.now) types.now) operations.now }
        ensures states { AreStates (map (λ t. table_of t.now) types.now) self.new.states.items }
        ensures runs { OnOk result (ReplaysFrom self.old.illegal (map (λ t. table_of t.now) types.now) t operations.now self.old self.new) }
    {
        match self.illegal {
            None => self.replay(types, t, operations),
            Some(_) => Ok(()),
        }
    }

    /// The same, where each operation so far is legal.
    #[inline(always)]
    fn replay(
        &mut self,
        types: &[&DeclaredType],
        t: u32,
        operations: &[Executed],
    ) -> Result<(), AllocError>
        requires states { AreStates (map (λ t. table_of t.now) types.now) self.old.states.items }
        requires operations { AreOperations (map (λ t. table_of t.now) types.now) operations.now }
        ensures states { AreStates (map (λ t. table_of t.now) types.now) self.new.states.items }
        ensures replays { OnOk result (ReplaysNext (map (λ t. table_of t.now) types.now) t operations.now self.old self.new) }
    {
        let commit_index = self.order.len();
        self.order.push(t)?;
        let stop = replay(&mut self.states, types, operations);
        self.illegal = illegal_at(commit_index, operations, stop);
        Ok(())
    }

    /// What an audit in this order says.
    pub fn outcome(self) -> Result<Audit, AuditFault>
        ensures { MatchOption self.illegal (IsOkAnd result (λ a. (a.order.items ≡ self.order.items) × (a.finals.items ≡ self.states.items)))
            (λ p. result ≡ Err (AuditFault.IllegalOp p.commit_index p.object p.op_index)) }
    {
        let SerialRun {
            order,
            states,
            illegal,
        } = self;
        match illegal {
            Some(place) => Err(AuditFault::IllegalOp {
                commit_index: place.commit_index,
                object: place.object,
                op_index: place.op_index,
            }),
            None => Ok(Audit {
                order,
                finals: states,
            }),
        }
    }
}

/// The place of the operation at which a replay stopped, of the transaction with this place in the order.
fn illegal_at(commit_index: usize, operations: &[Executed], stop: Option<Stop>) -> Option<Illegal>
    requires { IfSome stop (λ q. q.place ≤ length operations.now) }
    ensures { result ≡ illegal_at commit_index operations.now stop }
{
    match stop {
        Some(stop) => Some(Illegal {
            commit_index,
            object: stop.object,
            op_index: count_at(&operations[..stop.place], stop.object),
        }),
        None => None,
    }
}

/// The initial state of each type.
fn initial_states(alloc: Global, types: &[&DeclaredType]) -> Result<Vec<u32>, AllocError>
    ensures { IfOk result (λ v. AreInitial (map (λ t. table_of t.now) types.now) v.items) }
{
    let mut states = Vec::new(alloc);
    for declared in types {
        states.push(declared.initial())?;
    }
    Ok(states)
}
