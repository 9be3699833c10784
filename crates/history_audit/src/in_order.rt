//! The audit of a history in an order of its committed transactions that is given.

ghost use Rattle.std.specs.Prelude.{◌≡◌, ◌++◌, ◌∷◌, [], ℕ, List, true, map, IfErr, IfOk, MatchResult, OnOk};
ghost use Rattle.std.specs.List.{AllByRecursion};
ghost use Rattle.declared_types.specs.Declarations.{table_of};
ghost use Rattle.object_trait.specs.declared.event.Event.{Event as EventValue};
ghost use Rattle.serial_order.specs.History.{commits};
ghost use Rattle.serial_order.specs.Operations.{is_among};
ghost use Rattle.history_audit.specs.Commits.{AreCommits, NoneAborts, numbers};
ghost use Rattle.history_audit.specs.InOrder.{AreCommitted, AuditsInOrder, KeepsPrecedes};
ghost use Rattle.history_audit.specs.OrderTests.{RunsInOrder, StopsOrder};
ghost use Rattle.history_judge.specs.Replay.{AreOperations, AreStates};
ghost use Rattle.history_judge.specs.SerialRun.{IsSerialRunOf};

use crate::commits::Commits;
use crate::dates::dates_of;
use crate::in_order_fault::InOrderFault;
use crate::order_tests::{all_there, each_after, each_committed};
use declared_types::DeclaredType;
use history_judge::{Audit, AuditFault, SerialRun};
use object_trait::Event;
use std::alloc::{AllocError, Global};
use type_table::runs_along;

/// Audits events at objects of these types in this order of the committed transactions, in time linear in the
/// events. At `Ok` the events are a history, the order is one of its committed transactions that keeps what
/// precedes, and each state to which it leads is one of its object's table.
///
/// # Errors
///
/// `BadEvent` where the events are no history, with the first bad one; `Order` where they are one and the order may
/// not be asked for: a transaction that didn't commit or is there twice, whichever is first, then the least that is
/// missing, then the first that comes before one that precedes it; `IllegalOp` where it may be and isn't legal,
/// with the first illegal operation; `NoMemory` where memory was refused.
pub fn audit_in_order(
    alloc: Global,
    events: &[Event],
    types: &[&DeclaredType],
    order: &[u32],
) -> Result<Audit, InOrderFault>
    ensures audits { AuditsInOrder (map (λ t. table_of t.now) types.now) events.now order.now result }
    ensures states { IfOk result (λ a. AreStates (map (λ t. table_of t.now) types.now) a.finals.items) }
{
    let committed = match Commits::new(alloc, events, types) {
        Ok(committed) => committed,
        Err(fault) => return Err(InOrderFault::Audit(fault)),
    };
    test_order(alloc, events, &committed, order)?;
    match run_in_order(alloc, types, &committed, order) {
        Ok(audit) => Ok(audit),
        Err(fault) => Err(InOrderFault::Audit(fault)),
    }
}

/// Whether the committed transactions of these events may be asked for in this order.
fn test_order(
    alloc: Global,
    events: &[Event],
    committed: &Commits,
    order: &[u32],
) -> Result<(), InOrderFault>
    requires numbers { numbers committed.now ≡ commits events.now }
    requires apart { NoneAborts events.now }
    ensures { MatchResult result (λ _. KeepsPrecedes events.now order.now) (StopsOrder events.now order.now) }
{
    let there = each_committed(alloc, committed, order)?;
    all_there(committed.as_slice(), order, &there)?;
    let count = committed.as_slice().len();
    let dates = dates_of(alloc, events, count, committed.above())?;
    each_after(alloc, committed, &dates, order)
}

/// Runs the operations of these transactions in this order.
fn run_in_order(
    alloc: Global,
    types: &[&DeclaredType],
    committed: &Commits,
    order: &[u32],
) -> Result<Audit, AuditFault>
    requires committed { AreCommitted (numbers committed.now) order.now }
    requires there { AllByRecursion (λ c. AreOperations (map (λ t. table_of t.now) types.now) c.operations) committed.now }
    ensures runs { (H : List EventValue) → AreCommits (map (λ t. table_of t.now) types.now) H committed.now → RunsInOrder (map (λ t. table_of t.now) types.now) H order.now result }
    ensures states { IfOk result (λ a. AreStates (map (λ t. table_of t.now) types.now) a.finals.items) }
{
    let mut run = match SerialRun::new(alloc, types) {
        Ok(run) => run,
        Err(AllocError) => return Err(AuditFault::NoMemory),
    };
    for t in order {
        take_one(&mut run, types, committed, *t)?;
    }
    run.outcome()
}

/// Runs the operations of t after those of the transactions before it.
fn take_one(
    run: &mut SerialRun,
    types: &[&DeclaredType],
    committed: &Commits,
    t: u32,
) -> Result<(), AuditFault>
    requires committed { is_among (numbers committed.now) t ≡ true }
    requires there { AllByRecursion (λ c. AreOperations (map (λ t. table_of t.now) types.now) c.operations) committed.now }
    requires states { AreStates (map (λ t. table_of t.now) types.now) run.old.states.items }
    ensures states { AreStates (map (λ t. table_of t.now) types.now) run.new.states.items }
    ensures ok { OnOk result ((H : List EventValue) (ts : List ℕ) → AreCommits (map (λ t. table_of t.now) types.now) H committed.now
        → IsSerialRunOf (map (λ t. table_of t.now) types.now) H ts run.old → IsSerialRunOf (map (λ t. table_of t.now) types.now) H (ts ++ t ∷ []) run.new) }
    ensures err { IfErr result (λ fault. fault ≡ AuditFault.NoMemory) }
{
    runs_along();
    let Some(place) = committed.place(t) else {
        return Ok(());
    };
    let operations = committed.as_slice()[place].operations.as_slice();
    match run.take(types, t, operations) {
        Ok(()) => Ok(()),
        Err(AllocError) => Err(AuditFault::NoMemory),
    }
}
