//! The audit of a store's history.

ghost use Rattle.std.specs.Prelude.{◌≡◌, None, map, IfOk};
ghost use Rattle.history_judge.specs.Audit.{Audits};
ghost use Rattle.declared_types.specs.Declarations.{table_of as declared_table};
ghost use Rattle.object_types.specs.Types.{value_of};
ghost use Rattle.store_commands.specs.StoreAudit.{IsPassed, TellsAudit, table_of_checked};

use command_files::{Fault, Verdict};
use declared_types::DeclaredType;
use history_audit::{Audit, AuditFault, audit, serial_histories_pass, write_audit};
use object_trait::{Event, Recovery};
use outputs::Out;
use serial_order::run_is_history;
use std::alloc::{AllocError, Global};
use std::sync::Arc;
use store::Store;
use table_checker::CheckedType;

/// Audits the whole history of a store of these types, and writes the lines.
///
/// # Errors
///
/// Memory was refused, or the output failed.
pub(crate) fn tell_audit<'a, R: Recovery, W: Out>(
    alloc: Global,
    store: &Store<R>,
    types: &[Arc<CheckedType>],
    out: &mut W,
) -> Result<Verdict, Fault<'a>>
    requires out_takes { W.fault out.old ≡ None }
    requires types { store.now.types ≡ map value_of types.now }
    requires whole { store.now.forgotten ≡ 0 }
    ensures { TellsAudit store.now result (W.taken out.old) (W.taken out.new) }
{
    let outcome = audit_of(alloc, store, types);
    write_audit(&outcome, out)?;
    match outcome {
        Ok(_) => Ok(Verdict::Yes),
        // it is a yes, or memory was refused
        Err(_) => Err(Fault::NoMemory),
    }
}

/// The audit of the whole history of a store of these types. It is a yes, or memory was refused: the
/// history of a store is serial.
pub(crate) fn audit_of<R: Recovery>(
    alloc: Global,
    store: &Store<R>,
    types: &[Arc<CheckedType>],
) -> Result<Audit, AuditFault>
    requires types { store.now.types ≡ map value_of types.now }
    requires whole { store.now.forgotten ≡ 0 }
    ensures { IsPassed store.now result }
{
    run_is_history();
    serial_histories_pass();
    audit_types(alloc, types, store.history())
}

/// Audits events at objects of these types.
pub fn audit_types(
    alloc: Global,
    types: &[Arc<CheckedType>],
    events: &[Event],
) -> Result<Audit, AuditFault>
    ensures { Audits (map table_of_checked types.now) events.now result }
{
    match declared_of(alloc, types) {
        Ok(declared) => audit(alloc, events, &declared),
        Err(_) => Err(AuditFault::NoMemory),
    }
}

/// How these types were declared.
fn declared_of<'a>(
    alloc: Global,
    types: &'a [Arc<CheckedType>],
) -> Result<Vec<&'a DeclaredType>, AllocError>
    ensures { IfOk result (λ declared. map (λ t. declared_table t.now) declared.items ≡ map table_of_checked types.now) }
{
    let mut declared = Vec::with_capacity(alloc, types.len())?;
    for checked in types {
        declared.push_reserved(checked.declared());
    }
    Ok(declared)
}
