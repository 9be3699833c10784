//! What is found after the machine stopped.

ghost use Rattle.std.specs.Prelude.{◌≡◌, ◌⊎◌, List, IsTrue, IfSome};
ghost use Rattle.sqlite_trees.specs.Tree.{Trees};
ghost use Rattle.sqlite_trees.specs.View.{IsClean};
ghost use Rattle.journal.specs.Contents.{contents_of};
ghost use Rattle.journal.specs.Journal.{Clean, IsJournal, IsNumbered, IsOpen, durable, may_leave, written};
ghost use Rattle.journal.specs.Said.{contents_beside};

use crate::contents::FileContents;
use crate::journal::Journal;
use sqlite_trees::store::{Alter, Reopen};
use std::alloc::Global;

/// The machine stops, and the file is opened again: it says what one of the outcomes of a crash says.
pub fn restart<S: Alter + Reopen + Drop>(
    alloc: Global,
    journal: Journal<S>,
) -> Option<(Journal<S>, FileContents)>
    requires { IsNumbered S.Store journal }
    ensures kept { IfSome result (λ r. IsJournal S.Store r.0) }
    ensures clean { IfSome result (λ r. Clean S.Store r.0 → Clean S.Store journal) }
    ensures settled { IfSome result (λ r. Clean S.Store r.0 → written S.Store r.0 ≡ durable S.Store r.0) }
    ensures is_open { IfSome result (λ r. Clean S.Store r.0 → IsOpen S.Store r.0) }
    ensures said { IfSome result (λ r. Clean S.Store r.0 → durable S.Store r.0 ≡ contents_beside (durable S.Store r.0).outcomes r.1) }
    ensures found { IfSome result (λ r. Clean S.Store r.0 → (db : Trees) × may_leave S.Store journal db × (durable S.Store r.0 ≡ contents_of db)) }
{
    let mut store = journal.into_store();
    if store.crash_and_reopen().is_err() {
        return None;
    }
    match Journal::open(alloc, store) {
        Ok(opened) => Some(opened),
        Err(_) => None,
    }
}

/// What was written is committed and the machine stops, at any moment in between: what is found is what was
/// there at the last commit before, or all that was written; and the latter where the commit answered `Ok`.
pub fn commit_and_restart<S: Alter + Reopen + Drop>(
    alloc: Global,
    journal: Journal<S>,
) -> (bool, Option<(Journal<S>, FileContents)>)
    requires journal { IsJournal S.Store journal }
    requires is_open { IsOpen S.Store journal }
    ensures found { IfSome result.1 (λ r. Clean S.Store r.0
        → (durable S.Store r.0 ≡ written S.Store journal) ⊎ (durable S.Store r.0 ≡ durable S.Store journal)) }
    ensures acknowledged { IfSome result.1 (λ r. Clean S.Store r.0 → IsTrue result.0 → durable S.Store r.0 ≡ written S.Store journal) }
    ensures said { IfSome result.1 (λ r. Clean S.Store r.0 → durable S.Store r.0 ≡ contents_beside (durable S.Store r.0).outcomes r.1) }
{
    let mut journal = journal;
    let is_committed = journal.commit().is_ok();
    journal.is_settled();
    (is_committed, restart(alloc, journal))
}
