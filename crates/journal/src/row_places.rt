//! Which rows of the table of events have the events from one place to another.

ghost use Rattle.std.specs.Prelude.{◌≡◌, ◌<◌, ◌≤◌, ◌⊎◌, length, get_or, IfSome, None};
ghost use Rattle.journal.specs.RowPlaces.{AreBefore, HaveEvents};

/// Some rows, one after another: the first one's number, at which place among all events its own begin, and how
/// many rows they are.
#[derive(Clone, Copy)]
pub struct RowPlaces {
    pub first: u64,
    pub start: u64,
    pub count: usize,
}

/// The rows that have the events from this place on, as many as that, by where the events of each row begin;
/// none where there is no such row.
pub fn rows_of(starts: &[u64], from: u64, count: usize) -> Option<RowPlaces>
    ensures found { IfSome result (λ rows. HaveEvents starts.now from count rows) }
    ensures none { result ≡ None → AreBefore starts.now from count }
{
    if count == 0 {
        return None;
    }
    let first = last_at(starts, from)?;
    Some(RowPlaces {
        first: first as u64,
        start: starts[first],
        count: past_row(starts, first, from.checked_add(count as u64)) - first,
    })
}

/// Behind this row one whose events begin at this place or behind it, or how many rows there are.
fn past_row(starts: &[u64], first: usize, to: Option<u64>) -> usize
    requires { first < length starts.now }
    ensures within { (first < result) × (result ≤ length starts.now) }
    ensures past { IfSome to (λ place. result < length starts.now → place ≤ get_or starts.now result 0) }
    ensures all { to ≡ None → result ≡ length starts.now }
{
    let Some(place) = to else {
        return starts.len();
    };
    let past = first_from(starts, place);
    if first < past { past } else { starts.len() }
}

/// A row whose events begin at this place or before it; none where those of the first begin behind it.
fn last_at(starts: &[u64], place: u64) -> Option<usize>
    ensures found { IfSome result (λ row. (row < length starts.now) × (get_or starts.now row 0 ≤ place)) }
    ensures none { result ≡ None → (length starts.now ≡ 0) ⊎ (place < get_or starts.now 0 0) }
{
    let mut low = 0;
    let mut high = starts.len();
    while low + 1 < high {
        let middle = low + (high - low) / 2;
        if starts[middle] <= place {
            low = middle;
        } else {
            high = middle;
        }
    }
    match starts.get(low) {
        Some(start) if *start <= place => Some(low),
        _ => None,
    }
}

/// A row whose events begin at this place or behind it, or how many rows there are.
fn first_from(starts: &[u64], place: u64) -> usize
    ensures within { result ≤ length starts.now }
    ensures past { result < length starts.now → place ≤ get_or starts.now result 0 }
{
    let mut low = 0;
    let mut high = starts.len();
    while low < high {
        let middle = low + (high - low) / 2;
        if starts[middle] < place {
            low = middle + 1;
        } else {
            high = middle;
        }
    }
    high
}
