//! The audit of several histories one after another, of which each has the objects of the one before it, and may
//! have more.

ghost use Rattle.std.specs.Prelude.{◌≡◌, ◌<◌, ◌∷◌, None, Some, map, take, length, slice_get, IfOk, IfErr, OnOk};
ghost use Rattle.std.specs.Bool.{Decides};
ghost use Rattle.command_files.specs.declared.fault.Fault.TheVariants.{NoMemory};
ghost use Rattle.command_files.specs.Answers.{Comes, IsEarlyFault};
ghost use Rattle.history_audit.specs.Epochs.{told_epoch};
ghost use Rattle.history_audit.specs.EpochText.{epochs_text};
ghost use Rattle.store_commands.specs.Audited.{AuditsEach, BeginsWith, HaveObjects, all_objects, told_of};
ghost use Rattle.declared_types.specs.Declarations.{table_of};
ghost use Rattle.object_types.specs.Types.{IsUnplaced};
ghost use Rattle.store_files.specs.Types.{AreTablesOf};

use command_files::{Fault, Verdict, put_answer};
use declared_types::DeclaredType;
use history_audit::{Audit, AuditFault, EpochFault, EpochHistory, audit_epochs, write_epochs};
use history_text::HistoryFile;
use outputs::{Out, Sink};
use std::alloc::{AllocError, Global};
use store_files::declared_for;
use store_text::ObjectLine;

/// Tests that each history that follows the one at a path begins with the objects of the one before it.
///
/// # Errors
///
/// The first that doesn't, by its path.
pub(crate) fn same_objects<'a>(
    path: &'a str,
    first: &HistoryFile,
    others: &[&'a str],
    later: &[HistoryFile],
) -> Result<(), Fault<'a>>
    requires { length others.now ≡ length later.now }
    ensures same { OnOk result (HaveObjects first.now later.now) }
    ensures other { IfErr result (IsEarlyFault (¬ (HaveObjects first.now later.now))) }
{
    let mut before = first;
    for (n, next) in later.iter().enumerate() {
        if !begins_with(next, before) {
            return Err(Fault::OtherObjects {
                path: others[n],
                first: other_path(path, first, others, n, next),
            });
        }
        before = next;
    }
    Ok(())
}

/// The path of a history that the n-th that follows doesn't begin with: of the first, or of the one before.
fn other_path<'a>(
    path: &'a str,
    first: &HistoryFile,
    others: &[&'a str],
    n: usize,
    next: &HistoryFile,
) -> &'a str
    requires { n < length others.now }
{
    if n == 0 || !begins_with(next, first) {
        path
    } else {
        others[n - 1]
    }
}

/// Whether the objects of a history begin with those of another one.
fn begins_with(next: &HistoryFile, before: &HistoryFile) -> bool
    ensures { Decides result (BeginsWith next.now before.now) }
{
    let many = before.objects.len();
    many <= next.objects.len() && same_lines(&next.objects[..many], &before.objects)
}

/// Whether the lines of objects are the same.
fn same_lines(one: &[ObjectLine], other: &[ObjectLine]) -> bool
    ensures { Decides result (one.now ≡ other.now) }
{
    one == other
}

/// The answer to several histories, the first and those that follow it, each with its path, with these types.
pub(crate) fn audit_each<'a, W: Out>(
    alloc: Global,
    path: &'a str,
    first: &HistoryFile,
    others: &[&'a str],
    later: &[HistoryFile],
    declared: &[DeclaredType],
    out: &mut W,
) -> Result<Verdict, Fault<'a>>
    requires files { length others.now ≡ length later.now }
    requires writes { W.fault out.old ≡ None }
    ensures { Comes (AuditsEach first.now later.now declared.now) (IsUnplaced declared.now (all_objects first.now later.now)) result (W.taken out.old) (W.taken out.new) }
{
    let types = types_of_all(alloc, path, first, others, later, declared)?;
    let histories = histories_of(alloc, first, later)?;
    let outcome = audit_epochs(alloc, &histories, &types);
    let text = text_of(alloc, &outcome)?;
    match outcome {
        Ok(_) => put_answer(Verdict::Yes, &text, out),
        Err(
            EpochFault {
                epoch: _,
                fault: AuditFault::NoMemory,
            },
        ) => Err(Fault::NoMemory),
        Err(_) => put_answer(Verdict::No, &text, out),
    }
}

/// The types of all objects.
///
/// # Errors
///
/// The first object whose place isn't that of a type, with the path of the first history that has it; or memory
/// was refused.
fn types_of_all<'a, 'p>(
    alloc: Global,
    path: &'p str,
    first: &HistoryFile,
    others: &[&'p str],
    later: &[HistoryFile],
    declared: &'a [DeclaredType],
) -> Result<Vec<&'a DeclaredType>, Fault<'p>>
    requires { length others.now ≡ length later.now }
    ensures tables { IfOk result (λ types. AreTablesOf declared.now (all_objects first.now later.now) (map (λ t. table_of t.now) types.items)) }
    ensures refused { IfErr result (IsEarlyFault (IsUnplaced declared.now (all_objects first.now later.now))) }
{
    match declared_for(alloc, path, declared, last_objects(first, later)) {
        Err(Fault::NoType { path: _, x, place }) => Err(Fault::NoType {
            path: path_with(x, path, first, others, later),
            x,
            place,
        }),
        known => known,
    }
}

/// The path of the first history that has object x.
fn path_with<'p>(
    x: usize,
    path: &'p str,
    first: &HistoryFile,
    others: &[&'p str],
    later: &[HistoryFile],
) -> &'p str
    requires { length others.now ≡ length later.now }
{
    if x < first.objects.len() {
        return path;
    }
    for (n, next) in later.iter().enumerate() {
        if x < next.objects.len() {
            return others[n];
        }
    }
    path
}

/// The objects of the last history.
fn last_objects<'a>(first: &'a HistoryFile, later: &'a [HistoryFile]) -> &'a [ObjectLine]
    ensures { result.now ≡ all_objects first.now later.now }
{
    match later.last() {
        Some(last) => &last.objects,
        None => &first.objects,
    }
}

/// What is told of each history.
fn histories_of<'a>(
    alloc: Global,
    first: &'a HistoryFile,
    later: &'a [HistoryFile],
) -> Result<Vec<EpochHistory<'a>>, AllocError>
    ensures { IfOk result (λ them. map told_epoch them.items ≡ map told_of (first.now ∷ later.now)) }
{
    let mut histories = Vec::with_capacity(alloc, later.len() + 1)?;
    histories.push_reserved(history_of(first));
    for next in later {
        histories.push_reserved(history_of(next));
    }
    Ok(histories)
}

/// What is told of a history.
fn history_of(history: &HistoryFile) -> EpochHistory<'_>
    ensures { told_epoch result ≡ told_of history.now }
{
    EpochHistory {
        objects: history.objects.len(),
        events: &history.events,
    }
}

/// The lines of an audit, put together in memory, so that a growth that is refused leaves nothing written.
fn text_of<'a>(
    alloc: Global,
    outcome: &Result<Vec<Audit>, EpochFault>,
) -> Result<Vec<u8>, Fault<'a>>
    ensures text { IfOk result (λ text. text.items ≡ epochs_text outcome.now) }
    ensures failed { IfErr result (λ fault. fault ≡ NoMemory) }
{
    let mut text = Sink::new(Vec::new(alloc));
    match write_epochs(outcome, &mut text) {
        Ok(()) => Ok(text.into_inner()),
        Err(_) => Err(Fault::NoMemory),
    }
}
