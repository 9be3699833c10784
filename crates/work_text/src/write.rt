//! The whole text.

ghost use Rattle.std.specs.Prelude.{◌≡◌, None};
ghost use Rattle.work_text.specs.Text.{PutsWork};

use crate::jobs::write_jobs;
use crate::kept::write_kept;
use history_audit::{Audit, AuditFault, write_audit};
use history_text::write_history;
use object_trait::Recovery;
use outputs::{Out, OutFault, texts_in_turn};
use store::Store;
use store_text::ObjectLine;
use worker_turns::Report;

/// Writes what workers did at a store: the canonical text of its history, a line for the kept state of
/// each object, the lines of an audit, and a line for each job. Nothing of the history is forgotten. It
/// takes no memory itself.
///
/// # Errors
///
/// The fault that stopped the output, which then took a beginning of the text.
pub fn write_work<R: Recovery, W: Out>(
    store: &Store<R>,
    objects: &[ObjectLine],
    audit: &Result<Audit, AuditFault>,
    reports: &[Report],
    out: &mut W,
) -> Result<(), OutFault>
    requires out_takes { W.fault out.old ≡ None }
    requires whole { store.now.forgotten ≡ 0 }
    ensures { PutsWork store.now objects.now audit.now reports.now (W.taken out.old) (W.taken out.new) (W.fault out.new) result }
{
    texts_in_turn();
    write_history(objects, store.history(), out)?;
    write_kept(store, out)?;
    write_audit(audit, out)?;
    write_jobs(reports, out)
}
