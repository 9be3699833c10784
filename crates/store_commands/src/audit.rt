//! `audit`: whether the committed transactions of a history, or of several one after another, run one after
//! another, give the same replies.

ghost use Rattle.std.specs.Prelude.{◌≡◌, None, map, IfOk, IfErr};
ghost use Rattle.command_files.specs.declared.fault.Fault.TheVariants.{NoMemory};
ghost use Rattle.command_files.specs.Answers.{Comes};
ghost use Rattle.history_audit.specs.Text.{audit_text};
ghost use Rattle.store_commands.specs.Audited.{AuditsFiles, AuditsRead, HasAuditFault, IsSaid};
ghost use Rattle.object_types.specs.Types.{IsUnplaced};

use crate::several::{audit_each, same_objects};
use command_files::{Fault, Source, Verdict, put_answer, read_file};
use declared_types::DeclaredType;
use history_audit::{Audit, AuditFault, audit, write_audit};
use history_text::HistoryFile;
use outputs::{Out, Sink};
use std::alloc::Global;
use store_files::{HistoryFormat, declared_for, read_declared, read_histories};

/// `audit HISTORY [--then HISTORY]... TYPE...`: the histories are read in the order of the words and then the
/// types, each parsed before the next is opened; then the objects of each history that follows are compared
/// with those of the one before it, with which they have to begin, and the place of each object is tested; no
/// type is checked for a kind.
///
/// # Errors
///
/// A file can't be read or its text has a fault, the objects of a history that follows don't begin with those of
/// the one before it, no TYPE word is at an object's place, memory was refused, or the output failed.
pub fn audit_histories<'a, S: Source, W: Out>(
    alloc: Global,
    history: &'a str,
    others: &[&'a str],
    types: &[&'a str],
    source: &mut S,
    out: &mut W,
) -> Result<Verdict, Fault<'a>>
    requires { W.fault out.old ≡ None }
    ensures { let words = map (λ p. p.now) types.now in let others = map (λ p. p.now) others.now in let holds = S.holds source.old in
        Comes (AuditsFiles holds history.now others words) (HasAuditFault holds history.now others words) result (W.taken out.old) (W.taken out.new) }
{
    let first = read_file(alloc, &HistoryFormat, history, source)?;
    let later = read_histories(alloc, others, source)?;
    let declared = read_declared(alloc, types, source)?;
    same_objects(history, &first, others, &later)?;
    if later.is_empty() {
        audit_one(alloc, history, &first, &declared, out)
    } else {
        audit_each(alloc, history, &first, others, &later, &declared, out)
    }
}

/// The answer to one history, that was read at a path, with these types.
fn audit_one<'a, W: Out>(
    alloc: Global,
    path: &'a str,
    history: &HistoryFile,
    declared: &[DeclaredType],
    out: &mut W,
) -> Result<Verdict, Fault<'a>>
    requires { W.fault out.old ≡ None }
    ensures { Comes (AuditsRead history.now declared.now) (IsUnplaced declared.now history.now.objects.items) result (W.taken out.old) (W.taken out.new) }
{
    let types = declared_for(alloc, path, declared, &history.objects)?;
    let outcome = audit(alloc, &history.events, &types);
    put_audit(alloc, &outcome, out)
}

/// The answer that an audit is: a yes or a no with its lines.
pub(crate) fn put_audit<'a, W: Out>(
    alloc: Global,
    outcome: &Result<Audit, AuditFault>,
    out: &mut W,
) -> Result<Verdict, Fault<'a>>
    requires { W.fault out.old ≡ None }
    ensures { Comes (IsSaid outcome.now) ⊥ result (W.taken out.old) (W.taken out.new) }
{
    let text = audit_lines(alloc, outcome)?;
    match outcome {
        Ok(_) => put_answer(Verdict::Yes, &text, out),
        Err(AuditFault::NoMemory) => Err(Fault::NoMemory),
        Err(_) => put_answer(Verdict::No, &text, out),
    }
}

/// The lines of an audit, put together in memory, so that a growth that is refused leaves nothing written.
pub fn audit_lines<'a>(
    alloc: Global,
    outcome: &Result<Audit, AuditFault>,
) -> Result<Vec<u8>, Fault<'a>>
    ensures text { IfOk result (λ text. text.items ≡ audit_text outcome.now) }
    ensures failed { IfErr result (λ fault. fault ≡ NoMemory) }
{
    let mut text = Sink::new(Vec::new(alloc));
    match write_audit(outcome, &mut text) {
        Ok(()) => Ok(text.into_inner()),
        Err(_) => Err(Fault::NoMemory),
    }
}
