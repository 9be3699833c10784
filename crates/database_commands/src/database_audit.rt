//! `audit --database`: whether the committed transactions of a store's present epoch, run one after another from the
//! states where it began, give the same replies.

ghost use Rattle.std.specs.Prelude.{◌≡◌, ⊤, None, IfOk, IfErr, IfSome, IsTrue};
ghost use Rattle.sqlite_trees.specs.View.{IsClean};
ghost use Rattle.journal.specs.Contents.{contents_of};
ghost use Rattle.journal.specs.Said.{contents};
ghost use Rattle.command_files.specs.Answers.{Comes, IsEarlyFault};
ghost use Rattle.database_commands.specs.Audited.{AuditsContents, AuditsDatabase, IsVerdictOf};
ghost use Rattle.command_files.specs.declared.fault.Fault.TheVariants.{NoMemory};

use crate::faults::{fault_of_journal, fault_of_open, fault_of_unopened};
use crate::history::events_of;
use command_files::{Fault, Verdict, put_answer};
use database_files::{Databases, TornWrites};
use durable_store::file_types;
use history_audit::{Audit, AuditFault};
use journal::{FileContents, Journal};
use outputs::Out;
use sqlite_trees::store::Alter;
use std::alloc::Global;
use store_commands::{audit_lines, audit_types};

/// What an audit answers.
#[derive(Drop)]
struct Audited {
    verdict: Verdict,
    text: Vec<u8>,
}

/// `audit --database DATABASE`: the events since the present epoch began, at the states where it began. Nothing of the
/// file changes.
///
/// # Errors
///
/// The database isn't opened or isn't one of a store, memory was refused, or the output failed.
pub fn audit_database<'a, D: Databases, W: Out>(
    alloc: Global,
    path: &'a str,
    databases: &mut D,
    out: &mut W,
) -> Result<Verdict, Fault<'a>>
    requires { W.fault out.old ≡ None }
    ensures { Comes (AuditsDatabase (D.is_clean databases.new) (D.holds databases.old path.now)) ⊤ result (W.taken out.old) (W.taken out.new) }
{
    let audited = audit_at(alloc, path, databases)?;
    put_answer(audited.verdict, &audited.text, out)
}

/// The audit of the store at a path.
fn audit_at<'a, D: Databases>(
    alloc: Global,
    path: &'a str,
    databases: &mut D,
) -> Result<Audited, Fault<'a>>
    ensures told { IfOk result (λ audited. AuditsDatabase (D.is_clean databases.new) (D.holds databases.old path.now) audited.verdict audited.text.items) }
    ensures refused { IfErr result (IsEarlyFault ⊤) }
{
    match databases.open(path, TornWrites::AnyBytes) {
        Ok(trees) => {
            let (audited, trees) = audit_in(alloc, path, trees);
            databases.close(path, trees);
            audited
        }
        Err(fault) => Err(fault_of_unopened(path, fault)),
    }
}

/// The audit of the store in these trees, which come back.
fn audit_in<'a, S: Alter>(alloc: Global, path: &'a str, trees: S) -> (Result<Audited, Fault<'a>>, S)
    requires { IsClean (S.Store.view trees) → IsTrue (S.Store.view trees).is_numbered }
    ensures told { IfOk result.0 (λ audited. IsClean (S.Store.view result.1) → AuditsContents (contents_of (S.Store.view trees).committed) audited.verdict audited.text.items) }
    ensures clean { IfOk result.0 (λ _. IsClean (S.Store.view result.1) → IsClean (S.Store.view trees)) }
    ensures was_open { IfOk result.0 (λ _. IsClean (S.Store.view result.1) → IsTrue (S.Store.view trees).is_open) }
    ensures refused { IfErr result.0 (IsEarlyFault ⊤) }
{
    match Journal::open(alloc, trees) {
        Ok((journal, said)) => (audit_of(alloc, path, &said), journal.into_store()),
        Err((error, trees)) => (Err(fault_of_journal(path, error)), trees),
    }
}

/// The audit of what a file says.
fn audit_of<'a>(alloc: Global, path: &'a str, said: &FileContents) -> Result<Audited, Fault<'a>>
    ensures told { IfOk result (λ audited. AuditsContents (contents said.now) audited.verdict audited.text.items) }
    ensures refused { IfErr result (IsEarlyFault ⊤) }
{
    let types = match file_types(alloc, said) {
        Ok(types) => types,
        Err(error) => return Err(fault_of_open(path, error)),
    };
    let events = events_of(alloc, &said.events)?;
    let outcome = audit_types(alloc, &types, &events);
    let text = audit_lines(alloc, &outcome)?;
    told(&outcome, text)
}

/// What an audit with these lines answers.
fn told<'a>(outcome: &Result<Audit, AuditFault>, text: Vec<u8>) -> Result<Audited, Fault<'a>>
    ensures verdict { IfOk result (λ audited. IsVerdictOf outcome.now audited.verdict) }
    ensures text { IfOk result (λ audited. audited.text.items ≡ text.items) }
    ensures failed { IfErr result (λ fault. fault ≡ NoMemory) }
{
    let verdict = match outcome {
        Ok(_) => Verdict::Yes,
        Err(AuditFault::BadEvent { .. } | AuditFault::IllegalOp { .. }) => Verdict::No,
        Err(AuditFault::NoMemory) => return Err(Fault::NoMemory),
    };
    Ok(Audited { verdict, text })
}
