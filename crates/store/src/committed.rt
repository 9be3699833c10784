//! The states of the committed transactions alone.

ghost use Rattle.std.specs.Prelude.{◌≡◌, nat_lt, map, length, is_some, IfOk, IfSome};
ghost use Rattle.serial_order.specs.History.{commits};
ghost use Rattle.store_laws.specs.Stored.{objects};
ghost use Rattle.store.specs.CommittedStates.{HaveCommitted, IsCommittedState, IsSnapshot};

use crate::store::Store;
use committed_states::{committed_agrees, committed_is_there};
use object_trait::{Recovery, checked_is_covered};
use std::alloc::{AllocError, Global};

/// The committed states of all objects at one moment.
#[derive(Drop)]
pub struct Snapshot {
    /// Of each object, in their order.
    pub states: Vec<u32>,
    /// How many transactions had committed.
    pub commits: u32,
}

impl<R: Recovery> Store<R> {
    /// The committed state of the object at x, None where there is none: what is left of it where all open
    /// transactions are left out. It looks like the serial state, and is equieffective to it where the yes is strong;
    /// unlike the kept state it is so while transactions are open. It is asked of the object alone, and makes no event.
    pub fn committed(&self, x: u32) -> Option<u32>
        ensures there { is_some result ≡ nat_lt x (length (objects self.now)) }
        ensures committed { IfSome result (λ state. IsCommittedState self.now x state) }
    {
        checked_is_covered();
        committed_is_there();
        committed_agrees();
        let object = self.objects.get(x as usize)?;
        Some(object.committed())
    }

    /// The committed states of all objects, with how many transactions had committed. It makes no event.
    ///
    /// # Errors
    ///
    /// Memory was refused.
    pub fn snapshot(&self, alloc: Global) -> Result<Snapshot, AllocError>
        ensures states { IfOk result (λ p. IsSnapshot self.now p.states.items) }
        ensures commits { IfOk result (λ p. p.commits ≡ length (commits self.now.history)) }
    {
        checked_is_covered();
        committed_is_there();
        committed_agrees();
        let states = committed_states(alloc, &self.objects)?;
        Ok(Snapshot {
            states,
            commits: self.commit_count(),
        })
    }
}

/// The committed states of objects.
fn committed_states<R: Recovery>(alloc: Global, objects: &[R]) -> Result<Vec<u32>, AllocError>
    ensures { IfOk result (λ states. HaveCommitted (map R.meaning objects.now) states.items) }
{
    let mut states = Vec::with_capacity(alloc, objects.len())?;
    for object in objects {
        states.push_reserved(object.committed());
    }
    Ok(states)
}
