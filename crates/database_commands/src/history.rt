//! `history`: the present epoch of a store, as the text of a history.

ghost use Rattle.std.specs.Prelude.{◌≡◌, ⊤, None, IfOk, IfErr, IfSome, IsTrue};
ghost use Rattle.sqlite_trees.specs.View.{IsClean};
ghost use Rattle.event_text.specs.EventText.{events_of_kinds};
ghost use Rattle.journal.specs.Contents.{contents_of};
ghost use Rattle.journal.specs.Said.{contents};
ghost use Rattle.command_files.specs.Answers.{Comes, IsEarlyFault};
ghost use Rattle.command_files.specs.declared.fault.Fault.TheVariants.{NoMemory};
ghost use Rattle.database_commands.specs.History.{TellsHistory, text_of_epoch};

use crate::faults::{fault_of_journal, fault_of_unopened};
use command_files::{Fault, Verdict, put_answer};
use database_files::{Databases, TornWrites};
use history_text::write_history;
use journal::{FileContents, Journal};
use object_trait::{Event, EventKind};
use outputs::{Out, Sink};
use sqlite_trees::store::Alter;
use std::alloc::{AllocError, Global};

/// `history DATABASE`: the objects of the store, and the events since the present epoch began. Nothing of the file
/// changes.
///
/// # Errors
///
/// The database isn't opened or isn't one of a store, memory was refused, or the output failed.
pub fn tell_history<'a, D: Databases, W: Out>(
    alloc: Global,
    path: &'a str,
    databases: &mut D,
    out: &mut W,
) -> Result<Verdict, Fault<'a>>
    requires { W.fault out.old ≡ None }
    ensures { Comes (TellsHistory (D.is_clean databases.new) (D.holds databases.old path.now)) ⊤ result (W.taken out.old) (W.taken out.new) }
{
    let text = history_at(alloc, path, databases)?;
    put_answer(Verdict::Yes, &text, out)
}

/// The text of the history of the store at a path.
fn history_at<'a, D: Databases>(
    alloc: Global,
    path: &'a str,
    databases: &mut D,
) -> Result<Vec<u8>, Fault<'a>>
    ensures told { IfOk result (λ text. D.is_clean databases.new
        → IfSome (D.holds databases.old path.now) (λ db. text.items ≡ text_of_epoch (contents_of db))) }
    ensures refused { IfErr result (IsEarlyFault ⊤) }
{
    match databases.open(path, TornWrites::AnyBytes) {
        Ok(trees) => {
            let (text, trees) = history_in(alloc, path, trees);
            databases.close(path, trees);
            text
        }
        Err(fault) => Err(fault_of_unopened(path, fault)),
    }
}

/// The text of the history of the store in these trees, which come back.
fn history_in<'a, S: Alter>(
    alloc: Global,
    path: &'a str,
    trees: S,
) -> (Result<Vec<u8>, Fault<'a>>, S)
    requires { IsClean (S.Store.view trees) → IsTrue (S.Store.view trees).is_numbered }
    ensures told { IfOk result.0 (λ text. IsClean (S.Store.view result.1) → text.items ≡ text_of_epoch (contents_of (S.Store.view trees).committed)) }
    ensures clean { IfOk result.0 (λ _. IsClean (S.Store.view result.1) → IsClean (S.Store.view trees)) }
    ensures was_open { IfOk result.0 (λ _. IsClean (S.Store.view result.1) → IsTrue (S.Store.view trees).is_open) }
    ensures refused { IfErr result.0 (IsEarlyFault ⊤) }
{
    match Journal::open(alloc, trees) {
        Ok((journal, said)) => (text_of(alloc, &said), journal.into_store()),
        Err((error, trees)) => (Err(fault_of_journal(path, error)), trees),
    }
}

/// The text of the history that a file says.
fn text_of<'a>(alloc: Global, said: &FileContents) -> Result<Vec<u8>, Fault<'a>>
    ensures text { IfOk result (λ text. text.items ≡ text_of_epoch (contents said.now)) }
    ensures failed { IfErr result (λ fault. fault ≡ NoMemory) }
{
    let events = events_of(alloc, &said.events)?;
    let mut text = Sink::new(Vec::new(alloc));
    match write_history(&said.objects, &events, &mut text) {
        Ok(()) => Ok(text.into_inner()),
        Err(_) => Err(Fault::NoMemory),
    }
}

/// The events of a file, all by worker 0.
pub(crate) fn events_of(alloc: Global, happened: &[EventKind]) -> Result<Vec<Event>, AllocError>
    ensures { IfOk result (λ all. all.items ≡ events_of_kinds happened.now) }
{
    let mut events = Vec::with_capacity(alloc, happened.len())?;
    for kind in happened {
        events.push_reserved(Event {
            worker: 0,
            kind: *kind,
        });
    }
    Ok(events)
}
