//! What is found after the machine stopped.

ghost use Rattle.std.specs.Prelude.{◌≡◌, ◌⊎◌, ◌++◌, IsTrue, IfSome};
ghost use Rattle.sqlite_trees.specs.Tree.{Trees};
ghost use Rattle.store.specs.Ends.{closing_but};
ghost use Rattle.journal.specs.Contents.{contents_of};
ghost use Rattle.journal.specs.Journal.{Clean, IsNumbered, ShowsCommit, durable, may_leave, written};
ghost use Rattle.durable_store.specs.Durable.{IsDurable};
ghost use Rattle.durable_store.specs.Held.{prepared_numbers};
ghost use Rattle.durable_store.specs.Recovered.{IsRecovered};

use crate::durable::Durable;
use crate::recovered_store::resume;
use sqlite_trees::store::{Alter, Reopen};
use std::alloc::Global;

/// The machine stops at this moment, and the file is opened again: the store is that of an outcome of a crash.
pub fn restart<S: Alter + Reopen + Drop>(alloc: Global, running: Durable<S>) -> Option<Durable<S>>
    requires { IsNumbered S.Store running.journal }
    ensures sound { IfSome result (λ d. IsDurable S.Store d) }
    ensures shows { IfSome result (λ d. ShowsCommit S.Store d.journal) }
    ensures clean { IfSome result (λ d. Clean S.Store d.journal → Clean S.Store running.journal) }
    ensures found { IfSome result (λ d. Clean S.Store d.journal
        → (db : Trees) × may_leave S.Store running.journal db × IsRecovered S.Store (contents_of db) d) }
{
    let Durable {
        store,
        journal,
        names: _,
        prepared: _,
        strong: _,
    } = running;
    let _ = store.close();
    let (journal, said) = journal::restart(alloc, journal)?;
    match resume(alloc, journal, &said) {
        Ok(durable) => Some(durable),
        Err(_) => None,
    }
}

/// What was written is settled and the machine stops, at any moment in between, and the file is opened again. The
/// history begins with all events up to a settling that answered `Ok`: with those up to the last one before, or up
/// to this one, and the latter where it answered `Ok`. After these comes an abort of each transaction that was open and isn't
/// prepared.
pub fn settle_and_restart<S: Alter + Reopen + Drop>(
    alloc: Global,
    running: Durable<S>,
) -> (bool, Option<Durable<S>>)
    requires { IsDurable S.Store running }
    ensures found { IfSome result.1 (λ d. Clean S.Store d.journal
        → IsRecovered S.Store (written S.Store running.journal) d ⊎ IsRecovered S.Store (durable S.Store running.journal) d) }
    ensures acknowledged { IfSome result.1 (λ d. Clean S.Store d.journal → IsTrue result.0
        → d.store.history ≡ running.store.history ++ closing_but (prepared_numbers running.prepared.items) running.store.history) }
    ensures prepared { IfSome result.1 (λ d. Clean S.Store d.journal → IsTrue result.0 → d.prepared.items ≡ running.prepared.items) }
{
    let mut running = running;
    let is_settled = running.settle().is_ok();
    (is_settled, restart(alloc, running))
}
