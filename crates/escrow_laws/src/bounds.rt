//! The test whether a type is numeric, and the bounds of its operations.

ghost use Rattle.std.specs.Prelude.{◌≡◌, ◌<◌, ◌-◌, length, IfOk, IfErr, MatchOption};
ghost use Rattle.type_table.specs.Table.{next};
ghost use Rattle.escrow_laws.specs.Bounds.{AreBounds, bounds_of};
ghost use Rattle.escrow_laws.specs.Faults.{IsFaultless, IsFirstNumericFault};
ghost use Rattle.escrow_laws.specs.Search.{IsIllegalFrom, IsFirstLegalState, IsStretch, IsFirstOfOperation, IsFaultlessAt, IsBounded, is_alike, bounded_until};

use crate::bounded::Bounded;
use crate::numeric_fault::NumericFault;
use crate::op_bounds::OpBounds;
use type_table::{TypeTable, steps_within};

/// A step of an operation: a state in which it is legal, and the next state.
#[derive(Clone, Copy)]
struct Step {
    from: u16,
    to: u16,
}

/// The operations of a numeric type, with their bounds and with what they give and take. A type is
/// numeric where each of its operations is: it moves all states in which it is legal as far, and is legal
/// in each state between two in which it is. It takes no memory.
///
/// # Errors
///
/// The type isn't numeric: the least operation for which some state is at fault, and its least such
/// state.
pub fn numeric(table: &TypeTable) -> Result<OpBounds, NumericFault>
    ensures exact { IfOk result (λ ops. ops ≡ bounds_of table.now) }
    ensures bounds { IfOk result (λ ops. AreBounds table.now (table.now.states - 1) ops) }
    ensures fault { IfErr result (λ f. IsFirstNumericFault table.now f.operation f.state) }
{
    match first_fault(table) {
        Some(fault) => Err(fault),
        None => Ok(bounds_of(table)),
    }
}

/// The first fault of a type: the least operation that has one, and the least state at which it does.
/// It takes no memory.
pub fn first_fault(table: &TypeTable) -> Option<NumericFault>
    ensures { MatchOption result
        (IsFaultless table.now)
        (λ f. IsFirstNumericFault table.now f.operation f.state) }
{
    steps_within();
    for operation in 0..table.op_count() {
        if let Some(state) = fault_at(table, operation) {
            return Some(NumericFault { operation, state });
        }
    }
    None
}

/// The operations of a type without a fault.
fn bounds_of(table: &TypeTable) -> OpBounds
    requires { IsFaultless table.now }
    ensures exact { result ≡ bounds_of table.now }
    ensures bounds { AreBounds table.now (table.now.states - 1) result }
{
    steps_within();
    let mut ops = OpBounds::none();
    for k in 0..table.op_count() {
        ops.push(bounds_at(table, k));
    }
    ops
}

/// The first state in which an operation is at fault. From the first state in which it is legal it is
/// followed as long as it is legal and moves all states as far. Where that ends, the operation is at
/// fault if it is legal there or in any later state.
fn fault_at(table: &TypeTable, k: u8) -> Option<u16>
    requires { k < length table.now.ops }
    ensures { MatchOption result
        (IsFaultlessAt table.now k)
        (λ s. IsFirstOfOperation table.now k s) }
{
    let Some(first) = first_step(table, k, 0) else {
        return None;
    };
    let stop = first_stop(table, k, first);
    match first_step(table, k, stop) {
        None => None,
        Some(_) => Some(stop),
    }
}

/// An operation that is at fault nowhere.
fn bounds_at(table: &TypeTable, k: u8) -> Bounded
    requires operation { k < length table.now.ops }
    requires faultless { IsFaultlessAt table.now k }
    ensures { IsBounded table.now k result }
{
    steps_within();
    let _states = table.states();
    match first_step(table, k, 0) {
        None => Bounded::nowhere(),
        Some(first) => first.until(first_stop(table, k, first)),
    }
}

impl Step {
    /// The operation that is legal from here up to `stop`, and moves all states as far as this step.
    fn until(self, stop: u16) -> Bounded
        requires { 0 < stop }
        ensures { result ≡ bounded_until self.from self.to stop }
    {
        Bounded {
            low: u32::from(self.from),
            high: u32::from(stop - 1),
            gives: u32::from(self.to.saturating_sub(self.from)),
            takes: u32::from(self.from.saturating_sub(self.to)),
        }
    }
}

/// The step of an operation from the first state, from `start` on, in which it is legal.
fn first_step(table: &TypeTable, k: u8, start: u16) -> Option<Step>
    requires { k < length table.now.ops }
    ensures { MatchOption result
        (IsIllegalFrom table.now k start)
        (λ step. IsFirstLegalState table.now k start step.from step.to) }
{
    steps_within();
    for from in start..table.states() {
        if let Some(to) = table.next(from, k) {
            return Some(Step { from, to });
        }
    }
    None
}

/// The first state after a step in which its operation isn't legal, or moves otherwise; or the number
/// of states, where there is none.
fn first_stop(table: &TypeTable, k: u8, step: Step) -> u16
    requires operation { k < length table.now.ops }
    requires leads { next table.now step.from k ≡ Some step.to }
    ensures { IsStretch table.now k step.from step.to result }
{
    steps_within();
    for r in step.from..table.states() {
        if !is_alike(table, k, step, r) {
            return r;
        }
    }
    table.states()
}

/// Whether the operation of a step is legal in r, and moves it as far.
fn is_alike(table: &TypeTable, k: u8, step: Step, r: u16) -> bool
    requires operation { k < length table.now.ops }
    requires state { r < table.now.states }
    ensures { result ≡ is_alike step.from step.to r (next table.now r k) }
{
    match table.next(r, k) {
        None => false,
        Some(end) => u32::from(end) + u32::from(step.from) == u32::from(r) + u32::from(step.to),
    }
}
