//! The audit of histories one after another, as one.

ghost use Rattle.std.specs.Prelude.{◌≡◌, Ok, Err, map, take, length, IfOk, MatchResult};
ghost use Rattle.declared_types.specs.Declarations.{table_of};
ghost use Rattle.history_judge.specs.Audit.{Audits};
ghost use Rattle.history_audit.specs.Epochs.{AuditsEpochs, tables_at, told_epoch};
ghost use Rattle.history_judge.specs.Replay.{AreStates};

use crate::auditor::audit;
use crate::epoch_fault::EpochFault;
use crate::epoch_history::EpochHistory;
use declared_types::DeclaredType;
use history_judge::{Audit, AuditFault};
use std::alloc::{AllocError, Global};

/// Audits histories one after another at objects of these types, of which each history has the first: its
/// objects begin at the serial states in which the histories before it end, and those that are added at the
/// initial states of their types. At `Ok` each has its audit.
///
/// # Errors
///
/// The first history that has no yes, and why; or memory was refused.
pub fn audit_epochs(
    alloc: Global,
    histories: &[EpochHistory<'_>],
    types: &[&DeclaredType],
) -> Result<Vec<Audit>, EpochFault>
    ensures { AuditsEpochs (map (λ t. table_of t.now) types.now) (map told_epoch histories.now) result }
{
    let mut own = copies(alloc, types)?;
    audit_each(alloc, histories, &mut own)
}

/// The same at types that may be changed, which then begin at other states.
fn audit_each(
    alloc: Global,
    histories: &[EpochHistory<'_>],
    types: &mut Vec<DeclaredType>,
) -> Result<Vec<Audit>, EpochFault>
    ensures { AuditsEpochs (map table_of types.old.items) (map told_epoch histories.now) result }
{
    let mut audits = Vec::new(alloc);
    for epoch in 0..histories.len() {
        let audit = audit_next(alloc, epoch, &histories[epoch], types)?;
        audits.push(audit)?;
    }
    Ok(audits)
}

/// Audits the history of this epoch at types that begin, after a yes, at the states in which it ends.
fn audit_next(
    alloc: Global,
    epoch: usize,
    history: &EpochHistory<'_>,
    types: &mut Vec<DeclaredType>,
) -> Result<Audit, EpochFault>
    ensures { MatchResult result
        (λ a. Audits (take history.now.objects (map table_of types.old.items)) history.now.events.now (Ok a) × (map table_of types.new.items ≡ tables_at (map table_of types.old.items) a.finals.items))
        (λ f. (f.epoch ≡ epoch) × Audits (take history.now.objects (map table_of types.old.items)) history.now.events.now (Err f.fault)) }
{
    match audit_at(alloc, history, types) {
        Ok(audit) => {
            begin_at(types, &audit.finals);
            Ok(audit)
        }
        Err(fault) => Err(EpochFault { epoch, fault }),
    }
}

/// Audits a history at the first of types that aren't borrowed.
fn audit_at(
    alloc: Global,
    history: &EpochHistory<'_>,
    types: &[DeclaredType],
) -> Result<Audit, AuditFault>
    ensures audits { Audits (take history.now.objects (map table_of types.now)) history.now.events.now result }
    ensures states { IfOk result (λ a. AreStates (take history.now.objects (map table_of types.now)) a.finals.items) }
{
    let its = &types[..history.objects.min(types.len())];
    match borrowed(alloc, its) {
        Ok(types) => audit(alloc, history.events, &types),
        Err(AllocError) => Err(AuditFault::NoMemory),
    }
}

/// Each type, borrowed.
fn borrowed<'a>(
    alloc: Global,
    types: &'a [DeclaredType],
) -> Result<Vec<&'a DeclaredType>, AllocError>
    ensures { IfOk result (λ them. map (λ t. t.now) them.items ≡ types.now) }
{
    let mut them = Vec::with_capacity(alloc, types.len())?;
    for declared in types {
        them.push_reserved(declared);
    }
    Ok(them)
}

/// A copy of each type.
fn copies(alloc: Global, types: &[&DeclaredType]) -> Result<Vec<DeclaredType>, AllocError>
    ensures { IfOk result (λ own. own.items ≡ map (λ t. t.now) types.now) }
{
    let mut own = Vec::with_capacity(alloc, types.len())?;
    for declared in types {
        own.push_reserved(declared.copy(alloc)?);
    }
    Ok(own)
}

/// Each of the first types begins at its state from now on.
fn begin_at(types: &mut Vec<DeclaredType>, states: &[u32])
    requires { AreStates (take (length states.now) (map table_of types.old.items)) states.now }
    ensures { map table_of types.new.items ≡ tables_at (map table_of types.old.items) states.now }
{
    for x in 0..states.len() {
        types[x].begin_at(states[x]);
    }
}
