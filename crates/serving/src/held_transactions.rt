//! The transactions that are prepared, as a client is told of them.

ghost use Rattle.std.specs.Prelude.{IfOk};
ghost use Rattle.serving.specs.HeldTransactions.{DoesHeld, IsToldHeld};
ghost use Rattle.serving.specs.Several.{InTurn};

use crate::answer_line::{AnswerLine, HeldTransaction};
use crate::session::Session;
use journal::{JournalError, Prepared};
use objects::Object;
use sqlite_trees::store::Alter;
use std::alloc::{AllocError, Global};
use store::Store;

impl<S: Alter> Session<S> {
    /// The transactions that are prepared, each with the objects at which it holds operations. It is answered only once that
    /// is settled.
    ///
    /// # Errors
    ///
    /// Memory was refused.
    pub(crate) fn held(&self, alloc: Global) -> Result<AnswerLine, JournalError>
        ensures { IfOk result (λ a. DoesHeld self.now.store.prepared.items self.now.store.store a self.now.store.store) }
    {
        let prepared = held_transactions(alloc, self.store.store(), self.store.prepared())?;
        Ok(AnswerLine::Held { prepared })
    }
}

/// These, each with the objects at which it holds operations.
///
/// # Errors
///
/// Memory was refused.
fn held_transactions(
    alloc: Global,
    store: &Store<Object>,
    prepared: &[Prepared],
) -> Result<Vec<HeldTransaction>, AllocError>
    ensures { IfOk result (λ told. InTurn (IsToldHeld store.now) prepared.now told.items) }
{
    let mut told = Vec::with_capacity(alloc, prepared.len())?;
    for at in 0..prepared.len() {
        let one = prepared[at];
        let objects = store.held_at(alloc, one.number)?;
        told.push_reserved(HeldTransaction {
            prepared: one,
            objects,
        });
    }
    Ok(told)
}
