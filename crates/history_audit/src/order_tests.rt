//! Whether transactions may be asked for in an order.

ghost use Rattle.std.specs.Prelude.{◌≡◌, ◌<◌, ◌≤◌, ℕ, List, Some, true, length, take, get_or, min, unwrap_or, IfErr, IfOk, MatchOption};
ghost use Rattle.std.specs.List.{AllByRecursion};
ghost use Rattle.object_trait.specs.declared.event.Event.{Event};
ghost use Rattle.serial_order.specs.History.{commits};
ghost use Rattle.serial_order.specs.Operations.{is_among};
ghost use Rattle.history_audit.specs.Commits.{numbers};
ghost use Rattle.history_audit.specs.InOrder.{AreCommitted, HasAll};
ghost use Rattle.history_audit.specs.OrderTests.{AllMarked, AreDates, AreMarked, IsLeastUnmarked, KeepsDatesAt, StopsOrder};

use crate::commits::Commits;
use crate::in_order_fault::{InOrderFault, OrderFault};
use history_judge::Committed;
use std::alloc::Global;

/// Whether each of these committed, and none is there twice. Hands out which are there, by their numbers.
pub fn each_committed(
    alloc: Global,
    committed: &Commits,
    order: &[u32],
) -> Result<Vec<bool>, InOrderFault>
    ensures each { IfOk result (λ _. AreCommitted (numbers committed.now) order.now) }
    ensures marked { IfOk result (λ there. AreMarked order.now there.items) }
    ensures above { IfOk result (λ there. AllByRecursion (λ c. c.number < length there.items) committed.now) }
    ensures refused { IfErr result (λ fault. (H : List Event) → numbers committed.now ≡ commits H → StopsOrder H order.now fault) }
{
    let mut there = vec![in alloc; false; committed.above()]?;
    for t in order {
        if committed.place(*t).is_none() {
            return Err(InOrderFault::Order(OrderFault::NotCommitted { t: *t }));
        }
        if there[*t as usize] {
            return Err(InOrderFault::Order(OrderFault::Twice { t: *t }));
        }
        there[*t as usize] = true;
    }
    Ok(there)
}

/// Whether all that committed are there.
pub fn all_there(these: &[Committed], order: &[u32], there: &[bool]) -> Result<(), InOrderFault>
    requires each { AreCommitted (numbers these.now) order.now }
    requires marked { AreMarked order.now there.now }
    requires above { AllByRecursion (λ c. c.number < length there.now) these.now }
    ensures all { IfOk result (λ _. HasAll (numbers these.now) order.now) }
    ensures refused { IfErr result (λ fault. (H : List Event) → numbers these.now ≡ commits H → StopsOrder H order.now fault) }
{
    match least_unmarked(these, there) {
        Some(t) => Err(InOrderFault::Order(OrderFault::Missing { t })),
        None => Ok(()),
    }
}

/// Whether each comes after those that precede it: by these dates, of each how many committed before its last
/// operation that survives.
pub fn each_after(
    alloc: Global,
    committed: &Commits,
    dates: &[usize],
    order: &[u32],
) -> Result<(), InOrderFault>
    requires each { AreCommitted (numbers committed.now) order.now }
    requires all { HasAll (numbers committed.now) order.now }
    requires above { AllByRecursion (λ c. c.number < length dates.now) committed.now }
    requires dates { (u : ℕ) → is_among (numbers committed.now) u ≡ true → get_or dates.now u 0 ≤ length committed.now }
    ensures kept { IfOk result (λ _. (n : ℕ) → KeepsDatesAt (numbers committed.now) dates.now order.now n) }
    ensures refused { IfErr result (λ fault. (H : List Event) → numbers committed.now ≡ commits H → AreDates H dates.now → StopsOrder H order.now fault) }
{
    let all = committed.as_slice();
    let mut there = vec![in alloc; false; committed.above()]?;
    let mut front = 0;
    for u in order {
        let date = dates[*u as usize];
        // the first `front` are there
        if date > front {
            if let Some(t) = least_unmarked(&all[..date], &there) {
                return Err(InOrderFault::Order(OrderFault::Precedes { t, u: *u }));
            }
        }
        there[*u as usize] = true;
        front = advanced(all, &there, front);
    }
    Ok(())
}

/// How many of the first are there, where so many are.
fn advanced(these: &[Committed], there: &[bool], so_far: usize) -> usize
    requires above { AllByRecursion (λ c. c.number < length there.now) these.now }
    requires so_far { AllMarked (take so_far (numbers these.now)) there.now }
    ensures { AllMarked (take result (numbers these.now)) there.now }
{
    let mut front = so_far;
    'front: while front < these.len() && there[these[front].number as usize] {
        front += 1;
    }
    front
}

/// The least of these that isn't there.
fn least_unmarked(these: &[Committed], there: &[bool]) -> Option<u32>
    requires { AllByRecursion (λ c. c.number < length there.now) these.now }
    ensures { MatchOption result (AllMarked (numbers these.now) there.now) (IsLeastUnmarked (numbers these.now) there.now) }
{
    let mut least = None;
    for committed in these {
        if !there[committed.number as usize] {
            least = lesser(least, committed.number);
        }
    }
    least
}

/// The lesser of a number and another one, if any.
fn lesser(least: Option<u32>, number: u32) -> Option<u32>
    ensures { result ≡ Some (min (unwrap_or least number) number) }
{
    match least {
        Some(other) if other < number => Some(other),
        _ => Some(number),
    }
}
