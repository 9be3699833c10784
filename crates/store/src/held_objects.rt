//! At which objects an open transaction holds operations.

ghost use Rattle.std.specs.Prelude.{◌≡◌, IfOk};
ghost use Rattle.store.specs.HeldAt.{AreHeldAt};

use crate::store::Store;
use object_index::ObjectIndex;
use object_trait::Recovery;
use std::alloc::{AllocError, Global};
use store_laws::rows_say_who_is_open;

impl<R: Recovery> Store<R> {
    /// The objects at which transaction t holds operations, ascending, each once; none where it isn't open.
    ///
    /// # Errors
    ///
    /// Memory was refused.
    pub fn held_at(&self, alloc: Global, t: u32) -> Result<Vec<u32>, AllocError>
        ensures { IfOk result (λ xs. AreHeldAt self.now.history t xs.items) }
    {
        rows_say_who_is_open();
        if !self.transactions.is_open(t) {
            return Ok(Vec::new(alloc));
        }
        let mut held = numbers_of(alloc, self.transactions.places(t))?;
        held.sort_unstable();
        held.dedup();
        Ok(held)
    }
}

/// The numbers of these objects.
///
/// # Errors
///
/// Memory was refused.
fn numbers_of(alloc: Global, places: &[ObjectIndex]) -> Result<Vec<u32>, AllocError>
    ensures { IfOk result (λ numbers. numbers.items ≡ places.now) }
{
    let mut numbers = Vec::with_capacity(alloc, places.len())?;
    for x in places {
        numbers.push_reserved(x.number());
    }
    Ok(numbers)
}
