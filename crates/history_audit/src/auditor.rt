//! What an audit keeps of the events so far.

ghost use Rattle.std.specs.Prelude.{◌≡◌, ◌+◌, ◌<◌, [], map, length, take, Err, IfOk, MatchResult, MatchOption};
ghost use Rattle.std.specs.Result.{IsOkAnd};
ghost use Rattle.declared_types.specs.Declarations.{table_of};
ghost use Rattle.history_judge.specs.Audit.{Audits};
ghost use Rattle.history_audit.specs.Auditor.{IsAuditing};
ghost use Rattle.history_judge.specs.Replay.{AreStates};

use declared_types::DeclaredType;
use history_judge::{Audit, AuditFault, Committed, Judge, SerialRun, nothing_began};
use object_trait::Event;
use serial_order::{own_after, summary_after};
use std::alloc::{AllocError, Global};
use type_table::runs_along;

/// What an audit keeps of the events so far: what their judge keeps, and the run of what they commit.
#[derive(Drop)]
pub struct Auditor {
    judge: Judge,
    serial: SerialRun,
}

impl Auditor {
    /// Before the first event.
    pub fn new(alloc: Global, types: &[&DeclaredType]) -> Result<Auditor, AllocError>
        ensures { IfOk result (λ a. IsAuditing (map (λ t. table_of t.now) types.now) [] a) }
    {
        nothing_began();
        let serial = SerialRun::new(alloc, types)?;
        Ok(Auditor {
            judge: Judge::new(alloc),
            serial,
        })
    }

    /// Takes the event at this place, after those before it.
    #[inline(always)]
    pub fn take(
        &mut self,
        types: &[&DeclaredType],
        events: &[Event],
        at: usize,
    ) -> Result<(), AuditFault>
        requires inside { at < length events.now }
        requires so_far { IsAuditing (map (λ t. table_of t.now) types.now) (take at events.now) self.old }
        ensures { MatchResult result (λ _. IsAuditing (map (λ t. table_of t.now) types.now) (take (at + 1) events.now) self.new)
            (λ fault. Audits (map (λ t. table_of t.now) types.now) events.now (Err fault)) }
    {
        summary_after();
        own_after();
        runs_along();
        match self.judge.take(types, events, at) {
            Ok(None) => Ok(()),
            Ok(Some(committed)) => {
                let Committed { number, operations } = committed;
                let taken = self.serial.take(types, number, operations.as_slice());
                self.judge.take_back(operations);
                match taken {
                    Ok(()) => Ok(()),
                    Err(AllocError) => Err(AuditFault::NoMemory),
                }
            }
            Err(fault) => Err(fault),
        }
    }

    /// What the audit of the events says.
    pub fn outcome(self) -> Result<Audit, AuditFault>
        ensures { MatchOption self.serial.illegal (IsOkAnd result (λ a. (a.order.items ≡ self.serial.order.items) × (a.finals.items ≡ self.serial.states.items)))
            (λ p. result ≡ Err (AuditFault.IllegalOp p.commit_index p.object p.op_index)) }
    {
        let Auditor { judge: _, serial } = self;
        serial.outcome()
    }
}

/// Audits events at objects of these types, in time linear in the events. At `Ok` the events are a history and
/// serially legal, and each serial state is one of its
/// object's table.
///
/// # Errors
///
/// `BadEvent` where the events are no history, with the first bad one; `IllegalOp` where they are one that isn't
/// serially legal, with the first illegal operation; `NoMemory` where memory was refused.
pub fn audit(alloc: Global, events: &[Event], types: &[&DeclaredType]) -> Result<Audit, AuditFault>
    ensures audits { Audits (map (λ t. table_of t.now) types.now) events.now result }
    ensures states { IfOk result (λ a. AreStates (map (λ t. table_of t.now) types.now) a.finals.items) }
{
    let mut auditor = match Auditor::new(alloc, types) {
        Ok(auditor) => auditor,
        Err(AllocError) => return Err(AuditFault::NoMemory),
    };
    for at in 0..events.len() {
        auditor.take(types, events, at)?;
    }
    auditor.outcome()
}
