//! The end of a transaction at the objects where it has operations.

ghost use Rattle.std.specs.Prelude.{◌≡◌, ◌<◌, ◌≤◌, All, length, map};
ghost use Rattle.object_calls.specs.Ends.{AreZero, ChangesAt, EndsObject};

use crate::place_counts::{PlaceCounts, count};
use object_index::ObjectIndex;
use object_trait::Recovery;

/// How a transaction ends.
#[derive(Clone, Copy, Debug, PartialEq, Eq)]
pub enum End {
    /// Its operations are kept.
    Commit,
    /// Its operations are struck.
    Abort,
}

/// Ends t at the objects at these places, at each once. It takes no memory.
#[inline(always)]
pub fn end_at<R: Recovery>(
    objects: &mut Vec<R>,
    counts: &mut PlaceCounts,
    places: &[ObjectIndex],
    t: u32,
    how: End,
)
    requires inside { All (λ x. x < length objects.old.items) places.now }
    requires few { length places.now ≤ 4294967295 }
    requires room { length objects.old.items ≤ counts.old }
    ensures changes { ChangesAt places.now (λ x m n. EndsObject how m t n) (map R.meaning objects.old.items) (map R.meaning objects.new.items) }
    ensures room { counts.new ≡ counts.old }
{
    end_counted(objects, counts.counts.as_mut_slice(), places, t, how);
}

/// The same with the counts.
#[inline(always)]
fn end_counted<R: Recovery>(
    objects: &mut Vec<R>,
    counts: &mut [u32],
    places: &[ObjectIndex],
    t: u32,
    how: End,
)
    requires inside { All (λ x. x < length objects.old.items) places.now }
    requires few { length places.now ≤ 4294967295 }
    requires zero { AreZero counts.old }
    requires room { length objects.old.items ≤ length counts.old }
    ensures changes { ChangesAt places.now (λ x m n. EndsObject how m t n) (map R.meaning objects.old.items) (map R.meaning objects.new.items) }
    ensures zero { AreZero counts.new }
    ensures room { length counts.new ≡ length counts.old }
{
    count(counts, places);
    for place in places {
        let x = place.number() as usize;
        if counts[x] > 0 {
            counts[x] = 0;
            end_one(&mut objects[x], t, how);
        }
    }
}

/// Ends t at one object.
#[inline(always)]
fn end_one<R: Recovery>(object: &mut R, t: u32, how: End)
    ensures { EndsObject how (R.meaning object.old) t (R.meaning object.new) }
{
    match how {
        End::Commit => object.commit(t),
        End::Abort => object.abort(t),
    }
}
