//! A rollback at the objects where a transaction's last operations are.

ghost use Rattle.std.specs.Prelude.{◌≡◌, ◌<◌, ◌≤◌, All, length, map};
ghost use Rattle.object_trait.specs.Steps.{IsStrike};
ghost use Rattle.object_calls.specs.Ends.{AreZero, ChangesAt, HasLast, times_in};

use crate::place_counts::{PlaceCounts, count};
use object_index::ObjectIndex;
use object_trait::Recovery;

/// Strikes the last operations of t: one for each of these places, at the object there. Each object is
/// visited once. It takes no memory.
pub fn strike_at<R: Recovery>(
    objects: &mut Vec<R>,
    counts: &mut PlaceCounts,
    places: &[ObjectIndex],
    t: u32,
)
    requires inside { All (λ x. x < length objects.old.items) places.now }
    requires few { length places.now ≤ 4294967295 }
    requires room { length objects.old.items ≤ counts.old }
    requires last { HasLast t places.now (map R.meaning objects.old.items) }
    ensures changes { ChangesAt places.now (λ x m n. IsStrike m t (times_in x places.now) n) (map R.meaning objects.old.items) (map R.meaning objects.new.items) }
    ensures room { counts.new ≡ counts.old }
{
    strike_counted(objects, counts.counts.as_mut_slice(), places, t);
}

/// The same with the counts.
fn strike_counted<R: Recovery>(
    objects: &mut Vec<R>,
    counts: &mut [u32],
    places: &[ObjectIndex],
    t: u32,
)
    requires inside { All (λ x. x < length objects.old.items) places.now }
    requires few { length places.now ≤ 4294967295 }
    requires zero { AreZero counts.old }
    requires room { length objects.old.items ≤ length counts.old }
    requires last { HasLast t places.now (map R.meaning objects.old.items) }
    ensures changes { ChangesAt places.now (λ x m n. IsStrike m t (times_in x places.now) n) (map R.meaning objects.old.items) (map R.meaning objects.new.items) }
    ensures zero { AreZero counts.new }
    ensures room { length counts.new ≡ length counts.old }
{
    count(counts, places);
    for place in places {
        let x = place.number() as usize;
        let count = counts[x];
        if count > 0 {
            counts[x] = 0;
            objects[x].strike(t, count);
        }
    }
}
