//! Calls that take or give any amount.

ghost use Rattle.std.specs.Prelude.{◌≡◌, ◌↔◌, ℕ, ◌+◌, ◌≤◌, true, MatchOption};
ghost use Rattle.std.specs.List.{list_any};
ghost use Rattle.escrow_laws.specs.Marks.{FitsIn};
ghost use Rattle.escrow_manager.specs.KeptAmount.{lists, HasAmount, IsLeastAmount, IsMostAmount, first_kept, first_beyond, last_refused};

use crate::totals::Totals;
use escrow_laws::Mark;
use number_types::{NumberCall, NumberFile};

/// Whether a call of any amount takes it or gives it.
#[derive(Clone, Copy)]
pub enum Way {
    Take,
    Give,
}

impl Way {
    /// Whether a line lists the amount.
    fn lists(self, n: u32, call: NumberCall) -> bool
        ensures { result ≡ lists self n call }
    {
        match (self, call) {
            (Way::Take, NumberCall::Take(k)) | (Way::Give, NumberCall::Give(k)) => k == n,
            _ => false,
        }
    }

    /// The least amount with which all together fall, or rise, too far for the transaction with the mark u. So far
    /// t and u have these marks, and all have these totals.
    pub fn first_kept(self, base: u32, totals: Totals, t: Mark, u: Mark) -> u64
        requires fallen { totals.fallen ≤ base }
        requires risen { base + totals.risen ≤ 4294967295 }
        requires own { FitsIn 4294967295 base t }
        requires other { FitsIn 4294967295 base u }
        ensures { result ≡ first_kept self base totals t u }
    {
        let base = u64::from(base);
        match self {
            Way::Take => (base + t.above + u.fall + 1).saturating_sub(totals.fallen + u.floor),
            Way::Give => {
                let risen = totals.risen.saturating_sub(t.rise);
                (u.ceiling + u.rise + t.fall).saturating_sub(base + risen + t.above)
            }
        }
    }

    /// The least with which t's own operations are no longer legal, on numbers from 0 to `top`, where others
    /// fall so far and rise so far.
    pub fn first_beyond(self, top: u32, base: u32, t: Mark, down: u64, up: u64) -> u64
        requires down { down ≤ base }
        requires up { base + up ≤ 4294967295 }
        requires own { FitsIn 4294967295 base t }
        ensures { result ≡ first_beyond self top base t down up }
    {
        let base = u64::from(base);
        match self {
            Way::Take => (base + t.above + 1).saturating_sub(t.fall + down),
            Way::Give => (u64::from(top) + t.fall + 1).saturating_sub(base + up + t.above),
        }
    }

    /// The greatest whose refusal is no longer true, where others fall so far and rise so far.
    pub fn last_refused(self, top: u32, base: u32, t: Mark, down: u64, up: u64) -> u64
        requires down { down ≤ base }
        requires up { base + up ≤ 4294967295 }
        requires own { FitsIn 4294967295 base t }
        ensures { result ≡ last_refused self top base t down up }
    {
        let base = u64::from(base);
        match self {
            Way::Take => (base + up + t.above).saturating_sub(t.fall),
            Way::Give => {
                (u64::from(top) + t.fall).saturating_sub(base.saturating_sub(down) + t.above)
            }
        }
    }
}

/// Whether a line of a number lists the amount.
fn is_listed(number: &NumberFile, way: Way, n: u32) -> bool
    ensures { result ≡ list_any (lists way n) number.now.calls }
{
    number.calls().iter().any(|call| way.lists(n, *call))
}

/// The least amount from `start` on with which the call of any amount has operations.
pub fn least_amount(number: &NumberFile, way: Way, start: u64) -> Option<u32>
    ensures { MatchOption result
        ((n : ℕ) → start ≤ n → HasAmount number.now way n → ⊥)
        (IsLeastAmount number.now way start) }
{
    for n in start.max(1)..u64::from(number.max()) + 1 {
        if !is_listed(number, way, n as u32) {
            return Some(n as u32);
        }
    }
    None
}

/// The greatest amount up to `stop` with which the call of any amount has operations.
pub fn most_amount(number: &NumberFile, way: Way, stop: u64) -> Option<u32>
    ensures { MatchOption result
        ((n : ℕ) → n ≤ stop → HasAmount number.now way n → ⊥)
        (IsMostAmount number.now way stop) }
{
    let mut n = stop.min(u64::from(number.max()));
    'amounts: while n > 0 {
        if !is_listed(number, way, n as u32) {
            return Some(n as u32);
        }
        n -= 1;
    }
    None
}
