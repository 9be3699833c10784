//! `audit --order`: whether the committed transactions of a history, run one after another in an order that is
//! given, give the same replies.

ghost use Rattle.std.specs.Prelude.{◌≡◌, ◌⊎◌, Ok, Err, None, map, IfErr, IfOk};
ghost use Rattle.command_files.specs.Answers.{Comes, IsEarlyFault};
ghost use Rattle.history_audit.specs.declared.in_order_fault.InOrderFault.TheVariants as no;
ghost use Rattle.history_audit.specs.declared.in_order_fault.OrderFault.{OrderFault as WhyNot};
ghost use Rattle.object_types.specs.Types.{IsUnplaced};
ghost use Rattle.store_commands.specs.Ordered.{AuditsOrdered, AuditsOrderedRead, HasOrderedFault, IsOrderAmiss, in_order};

use crate::audit::put_audit;
use command_files::{Fault, OrderFault, Source, Verdict, read_file};
use declared_types::DeclaredType;
use history_audit::{Audit, AuditFault, InOrderFault, OrderFault as AuditedOrder, audit_in_order};
use history_text::HistoryFile;
use outputs::Out;
use std::alloc::Global;
use store_files::{HistoryFormat, declared_for, read_declared};

/// `audit --order T,T,.. HISTORY TYPE...`: the history is read and then the types, each parsed before the next is
/// opened; then the place of each object is tested; no type is checked for a kind.
///
/// # Errors
///
/// A file can't be read or its text has a fault, no TYPE word is at an object's place, the history has no first bad
/// event and its transactions may not be asked for in this order, memory was refused, or the output failed.
pub fn audit_ordered<'a, S: Source, W: Out>(
    alloc: Global,
    order: &[u32],
    history: &'a str,
    types: &[&'a str],
    source: &mut S,
    out: &mut W,
) -> Result<Verdict, Fault<'a>>
    requires { W.fault out.old ≡ None }
    ensures { let words = map (λ p. p.now) types.now in let holds = S.holds source.old in
        Comes (AuditsOrdered holds order.now history.now words) (HasOrderedFault holds order.now history.now words) result (W.taken out.old) (W.taken out.new) }
{
    let file = read_file(alloc, &HistoryFormat, history, source)?;
    let declared = read_declared(alloc, types, source)?;
    audit_read(alloc, order, history, &file, &declared, out)
}

/// The answer to a history, that was read at a path, with these types.
fn audit_read<'a, W: Out>(
    alloc: Global,
    order: &[u32],
    path: &'a str,
    history: &HistoryFile,
    declared: &[DeclaredType],
    out: &mut W,
) -> Result<Verdict, Fault<'a>>
    requires { W.fault out.old ≡ None }
    ensures { Comes (AuditsOrderedRead history.now order.now declared.now) (IsUnplaced declared.now history.now.objects.items ⊎ IsOrderAmiss history.now order.now declared.now)
        result (W.taken out.old) (W.taken out.new) }
{
    let types = declared_for(alloc, path, declared, &history.objects)?;
    let outcome = audit_in_order(alloc, &history.events, &types, order);
    let said = audited(path, outcome)?;
    put_audit(alloc, &said, out)
}

/// What an audit says, where the order may be asked for.
fn audited<'a>(
    path: &'a str,
    outcome: Result<Audit, InOrderFault>,
) -> Result<Result<Audit, AuditFault>, Fault<'a>>
    ensures said { IfOk result (λ r. outcome ≡ in_order r) }
    ensures amiss { IfErr result (IsEarlyFault ((fault : WhyNot) × (outcome ≡ Err (no.Order fault)))) }
{
    match outcome {
        Ok(audit) => Ok(Ok(audit)),
        Err(InOrderFault::Audit(fault)) => Ok(Err(fault)),
        Err(InOrderFault::Order(fault)) => Err(Fault::Order {
            path,
            fault: order_fault(fault),
        }),
    }
}

/// Why an order may not be asked for, as a fault says it.
fn order_fault(fault: AuditedOrder) -> OrderFault {
    match fault {
        AuditedOrder::NotCommitted { t } => OrderFault::NotCommitted { t },
        AuditedOrder::Twice { t } => OrderFault::Twice { t },
        AuditedOrder::Missing { t } => OrderFault::Missing { t },
        AuditedOrder::Precedes { t, u } => OrderFault::Precedes { t, u },
    }
}
