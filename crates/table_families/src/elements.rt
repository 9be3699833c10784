//! The parameters of sets and semiqueues.

ghost use Rattle.std.specs.Prelude.{◌≡◌, ℕ, ◌<◌, ◌≤◌, ◌≢◌, ◌↔◌, true, length, IsTrue};
ghost use Rattle.std.specs.List.{list_all};
ghost use Rattle.table_families.specs.Elements.{AreElements, element_at, is_short, repeats};

use type_table::Name;

/// Whether the names are elements: at least one, distinct, each of at most this many bytes.
pub fn are_elements(most: usize, elements: &[Name]) -> bool
    ensures { IsTrue result ↔ AreElements most elements.now }
{
    if elements.is_empty() {
        return false;
    }
    if !are_short(most, elements) {
        return false;
    }
    !repeats(elements)
}

fn are_short(most: usize, elements: &[Name]) -> bool
    ensures { result ≡ list_all (is_short most) elements.now }
{
    elements.iter().all(|e| e.as_bytes().len() <= most)
}

fn repeats(elements: &[Name]) -> bool
    ensures { result ≡ repeats elements.now }
{
    for (i, e) in elements.iter().enumerate() {
        if elements[i + 1..].contains(e) {
            return true;
        }
    }
    false
}
