//! What the file of a store says of prepared transactions and of a key.

ghost use Rattle.std.specs.Prelude.{◌≡◌, ⊤, IfErr, IfOk, IfSome, IsTrue};
ghost use Rattle.std.specs.Option.{option_copied};
ghost use Rattle.sqlite_trees.specs.View.{IsClean};
ghost use Rattle.transaction_key.specs.TransactionKey.{key_place};
ghost use Rattle.journal.specs.Contents.{contents_of};
ghost use Rattle.journal.specs.Journal.{Clean, IsJournal, durable, written};
ghost use Rattle.journal.specs.Said.{contents};
ghost use Rattle.command_files.specs.Answers.{IsEarlyFault};
ghost use Rattle.key_commands.specs.Held.{prepared_in};
ghost use Rattle.key_commands.specs.Reading.{ReadsPath, ReadsFile};

use crate::endings::undecided;
use crate::faults::{fault_of_journal, fault_of_unopened};
use command_files::Fault;
use database_files::{Databases, TornWrites};
use journal::{FileContents, Journal, KeyedOutcome, Prepared};
use object_trait::EventKind;
use sqlite_trees::store::Alter;
use std::alloc::Global;
use transaction_key::TransactionKey;

/// What was read of a file.
#[derive(Drop)]
pub(crate) struct Reading {
    /// The events of the present epoch.
    pub(crate) happened: Vec<EventKind>,
    /// The transactions that are prepared and not decided, in the order of their rows.
    pub(crate) held: Vec<Prepared>,
    /// What is kept at the place of the key, where one was asked for.
    pub(crate) kept: Option<KeyedOutcome>,
}

/// Reads the file of the store at a path. Nothing of it changes.
///
/// # Errors
///
/// The database isn't opened or isn't one of a store, or memory was refused.
pub(crate) fn read_at<'a, D: Databases>(
    alloc: Global,
    path: &'a str,
    key: Option<&TransactionKey>,
    databases: &mut D,
) -> Result<Reading, Fault<'a>>
    ensures found { IfOk result (ReadsPath (D.is_clean databases.new) (D.holds databases.old path.now) (D.holds databases.new path.now) (option_copied key.entry)) }
    ensures refused { IfErr result (IsEarlyFault ⊤) }
{
    match databases.open(path, TornWrites::AnyBytes) {
        Ok(trees) => {
            let (reading, trees) = read_in(alloc, path, key, trees);
            databases.close(path, trees);
            reading
        }
        Err(fault) => Err(fault_of_unopened(path, fault)),
    }
}

/// Reads the store in these trees, which come back.
fn read_in<'a, S: Alter>(
    alloc: Global,
    path: &'a str,
    key: Option<&TransactionKey>,
    trees: S,
) -> (Result<Reading, Fault<'a>>, S)
    requires { IsClean (S.Store.view trees) → IsTrue (S.Store.view trees).is_numbered }
    ensures read { IfOk result.0 (λ reading. IsClean (S.Store.view result.1) → ReadsFile (contents_of (S.Store.view trees).committed) (option_copied key.entry) reading) }
    ensures same { IfOk result.0 (λ _. IsClean (S.Store.view result.1) → contents_of (S.Store.view result.1).committed ≡ contents_of (S.Store.view trees).committed) }
    ensures clean { IfOk result.0 (λ _. IsClean (S.Store.view result.1) → IsClean (S.Store.view trees)) }
    ensures was_open { IfOk result.0 (λ _. IsClean (S.Store.view result.1) → IsTrue (S.Store.view trees).is_open) }
    ensures refused { IfErr result.0 (IsEarlyFault ⊤) }
{
    match Journal::open(alloc, trees) {
        Ok((mut journal, said)) => {
            let reading = read_journal(alloc, path, key, said, &mut journal);
            (reading, journal.into_store())
        }
        Err((error, trees)) => (Err(fault_of_journal(path, error)), trees),
    }
}

/// Reads a journal, whose open said this.
fn read_journal<'a, S: Alter>(
    alloc: Global,
    path: &'a str,
    key: Option<&TransactionKey>,
    said: FileContents,
    journal: &mut Journal<S>,
) -> Result<Reading, Fault<'a>>
    requires { IsJournal S.Store journal.old }
    ensures happened { IfOk result (λ reading. reading.happened.items ≡ said.events.items) }
    ensures held { IfOk result (λ reading. reading.held.items ≡ prepared_in (contents said)) }
    ensures kept { IfOk result (λ reading. Clean S.Store journal.new → IfSome (option_copied key.entry) (λ k. reading.kept ≡ (written S.Store journal.old).outcomes.at (key_place k))) }
    ensures same { IfOk result (λ _. Clean S.Store journal.new → durable S.Store journal.new ≡ durable S.Store journal.old) }
    ensures clean { Clean S.Store journal.new → Clean S.Store journal.old }
    ensures refused { IfErr result (IsEarlyFault ⊤) }
{
    let kept = kept_under(alloc, path, key, journal)?;
    let held = undecided(alloc, &said.events, &said.prepared)?;
    Ok(Reading {
        happened: said.events,
        held,
        kept,
    })
}

/// What is kept at the place of the key, where one is asked for.
fn kept_under<'a, S: Alter>(
    alloc: Global,
    path: &'a str,
    key: Option<&TransactionKey>,
    journal: &mut Journal<S>,
) -> Result<Option<KeyedOutcome>, Fault<'a>>
    requires { IsJournal S.Store journal.old }
    ensures kept { IfOk result (λ kept. Clean S.Store journal.new → IfSome (option_copied key.entry) (λ k. kept ≡ (written S.Store journal.old).outcomes.at (key_place k))) }
    ensures same { IfOk result (λ _. Clean S.Store journal.new → durable S.Store journal.new ≡ durable S.Store journal.old) }
    ensures clean { Clean S.Store journal.new → Clean S.Store journal.old }
    ensures refused { IfErr result (IsEarlyFault ⊤) }
{
    match key {
        Some(key) => match journal.outcome(alloc, key) {
            Ok(kept) => Ok(kept),
            Err(error) => Err(fault_of_journal(path, error)),
        },
        None => Ok(None),
    }
}
