//! Lists of counts with a bounded sum.

ghost use Rattle.std.specs.Prelude.{◌≡◌, ℕ, ◌+◌, ◌<◌, ◌≤◌, ◌∷◌, ◌++◌, map, min, IfOk, OnOk, slice_index};
ghost use Rattle.table_families.specs.Counts.{counts_within, number_within, AreNumbers, CountsInOrder};

use std::alloc::{AllocError, Global};

/// `counts_within n room` are the lists of n counts with a sum of at most `room`: exactly those,
/// each once, in lexicographic order.
pub fn counts_in_order()
    ensures { CountsInOrder }
{}

/// How many lists of this many counts have a sum of at most `room`, or 1,025 where there are more
/// than 1,024. Takes no memory.
pub(crate) fn number_within(n: usize, room: u16) -> u16
    requires { room < 1024 }
    ensures { result ≡ number_within n room }
{
    let mut numbers = [1; 1024];
    for _counts in 0..n {
        add_up(&mut numbers);
    }
    numbers[room as usize]
}

/// From the numbers of the lists of some counts to those of one more count, by Pascal's rule.
fn add_up(numbers: &mut [u16; 1024])
    requires { (k : ℕ) → k < 1024 → slice_index numbers.old k ≤ 1025 }
    ensures { (n : ℕ) → AreNumbers n numbers.old → AreNumbers (n + 1) numbers.new }
{
    for room in 1..1024 {
        numbers[room] = capped_sum(numbers[room - 1], numbers[room]);
    }
}

/// The sum, or 1,025 where it is greater.
fn capped_sum(a: u16, b: u16) -> u16
    requires first { a ≤ 1025 }
    requires second { b ≤ 1025 }
    ensures { result ≡ min (a + b) 1025 }
{
    (a + b).min(1025)
}

/// The lists of this many counts with a sum of at most `room`, in lexicographic order.
pub(crate) fn counts_within(alloc: Global, n: usize, room: u16) -> Result<Vec<Vec<u16>>, AllocError>
    requires { room < 1024 }
    ensures { IfOk result (λ lists. map (λ counts. counts.items) lists.items ≡ counts_within n room) }
{
    let mut lists = Vec::new(alloc);
    if n == 0 {
        lists.push(Vec::new(alloc))?;
        return Ok(lists);
    }
    for first in 0..room + 1 {
        let rest = counts_within(alloc, n - 1, room - first)?;
        push_behind(alloc, &mut lists, first, &rest)?;
    }
    Ok(lists)
}

/// Pushes each list with a first count before it.
fn push_behind(
    alloc: Global,
    lists: &mut Vec<Vec<u16>>,
    first: u16,
    rest: &[Vec<u16>],
) -> Result<(), AllocError>
    ensures { OnOk result (map (λ counts. counts.items) lists.new.items ≡ map (λ counts. counts.items) lists.old.items ++ map (λ counts. first ∷ counts.items) rest.now) }
{
    for counts in rest {
        lists.push(with_first(alloc, first, counts)?)?;
    }
    Ok(())
}

/// The list with a first count before it.
fn with_first(alloc: Global, first: u16, rest: &[u16]) -> Result<Vec<u16>, AllocError>
    ensures { IfOk result (λ counts. counts.items ≡ first ∷ rest.now) }
{
    let mut counts = Vec::new(alloc);
    counts.push(first)?;
    counts.extend_from_slice(rest)?;
    Ok(counts)
}
