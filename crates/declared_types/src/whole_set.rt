//! The set of all states.

ghost use Rattle.std.specs.Prelude.{◌≡◌, length};
ghost use Rattle.declared_types.specs.TypeFile.{is_whole};

use type_table::StateSet;

/// Whether a set is that of all states, so that a text has no `reach` line of it. `states` is how many there are.
pub fn is_whole(set: &StateSet, states: u16) -> bool
    requires { length set.now ≡ states }
    ensures { result ≡ is_whole set.now }
{
    for s in 0..states {
        if !set.has(s) {
            return false;
        }
    }
    true
}
