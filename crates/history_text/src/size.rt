//! How many objects the canonical text of a history says that it may have.

ghost use Rattle.std.specs.Prelude.{◌≡◌};
ghost use Rattle.history_text.specs.Canonical.{canonical_size, have_names, places_of};

use store_text::{ObjectLine, may_have};

/// The number of the `objects` line of these objects: how many there are, or one more than the greatest place
/// of a type, if that is greater. `None` where it is at most 256 and no object has a name, so that no such line is
/// needed.
pub fn canonical_size(objects: &[ObjectLine]) -> Option<usize>
    ensures { result ≡ canonical_size objects.now }
{
    let needed = objects.len().max(places_of(objects));
    if needed > may_have(None) as usize || have_names(objects) {
        Some(needed)
    } else {
        None
    }
}

/// Whether an object has a name.
fn have_names(objects: &[ObjectLine]) -> bool
    ensures { result ≡ have_names objects.now }
{
    objects.iter().any(|object| object.name.is_some())
}

/// One more than the greatest place of a type.
fn places_of(objects: &[ObjectLine]) -> usize
    ensures { result ≡ places_of objects.now }
{
    let mut most = 0;
    for object in objects {
        most = most.max(object.file as usize + 1);
    }
    most
}
