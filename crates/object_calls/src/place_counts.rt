//! How often each place is among those of a transaction.

ghost use Rattle.std.specs.Prelude.{◌≡◌, ℕ, ◌<◌, ◌≤◌, All, length, slice_get, Some, IfOk};
ghost use Rattle.object_calls.specs.Ends.{AreZero, times_in};

use object_index::ObjectIndex;
use std::alloc::{AllocError, Global};
use std::marker::Model;

/// Room to count how often each place is among some, so that each is visited once. Between two calls each count is 0.
///
/// Contracts see for how many places there is room.
#[derive(Drop)]
pub struct PlaceCounts {
    pub(crate) counts: Vec<u32>,
}

impl Model for PlaceCounts {
    ghost use Rattle.std.specs.Prelude.{ℕ, length};
    ghost use Rattle.object_calls.specs.Ends.{AreZero};

    ghost Value = { ℕ };

    ghost view = { λ a. length a.counts.items };

    ghost invariant = { λ a. AreZero a.counts.items };
}

impl PlaceCounts {
    /// Room for this many places.
    ///
    /// # Errors
    ///
    /// Memory was refused.
    pub fn new(alloc: Global, places: usize) -> Result<PlaceCounts, AllocError>
        ensures { IfOk result (λ counts. counts ≡ places) }
    {
        let mut counts = Vec::new(alloc);
        counts.resize(places, 0)?;
        Ok(PlaceCounts { counts })
    }
}

/// Counts how often each place is among these.
pub(crate) fn count(counts: &mut [u32], places: &[ObjectIndex])
    requires zero { AreZero counts.old }
    requires inside { All (λ x. x < length counts.old) places.now }
    requires few { length places.now ≤ 4294967295 }
    ensures room { length counts.new ≡ length counts.old }
    ensures exact { (x : ℕ) → x < length counts.old → slice_get counts.new x ≡ Some (times_in x places.now) }
{
    for place in places {
        let x = place.number() as usize;
        counts[x] += 1;
    }
}
