//! What is kept of the marks of all open transactions together.

ghost use Rattle.std.specs.Prelude.{◌≡◌, ◌↔◌, ◌≤◌, ◌<◌, ◌^◌, true, [], All};
ghost use Rattle.escrow_laws.specs.Marks.{unmarked, fallen_of, risen_of};
ghost use Rattle.escrow_manager.specs.Totals.{need_of, mark_limit, totals_of, totals_with, stand, HasShortSums, AreFirm};

use escrow_laws::{Mark, OpenMark};

/// Two sums and two extremes of marks.
#[derive(Clone, Copy, Debug, PartialEq, Eq)]
pub struct Totals {
    /// How far all fall.
    pub fallen: u64,
    /// How far all rise.
    pub risen: u64,
    /// The most that one needs beside what it falls itself: that much is there where all have fallen.
    pub needed: u64,
    /// The least limit of one and of what it rises itself: where all have risen, the number is below.
    pub limit: u64,
}

/// How much a mark needs beside what it falls itself.
fn need_of(mark: Mark) -> u64
    ensures { result ≡ need_of mark }
{
    mark.floor.saturating_sub(mark.fall)
}

/// Its limit and what it rises itself.
fn limit_of(mark: Mark) -> u64
    requires { HasShortSums mark }
    ensures { result ≡ mark_limit mark }
{
    mark.ceiling + mark.rise
}

impl Totals {
    /// Those of no marks, on numbers from 0 to `top`.
    pub fn none(top: u32) -> Totals
        ensures { result ≡ totals_of top [] }
    {
        Totals {
            fallen: 0,
            risen: 0,
            needed: 0,
            limit: u64::from(top) + 1,
        }
    }

    /// Those of these marks, on numbers from 0 to `top`.
    pub fn of(marks: &Vec<OpenMark>, top: u32) -> Totals
        requires short { All (λ o. HasShortSums o.mark) marks.now.items }
        requires fallen { fallen_of marks.now.items < 2 ^ 62 }
        requires risen { risen_of marks.now.items < 2 ^ 62 }
        ensures { result ≡ totals_of top marks.now.items }
    {
        let mut totals = Totals::none(top);
        for open in marks {
            totals = totals.with(Mark::unmarked(0), open.mark);
        }
        totals
    }

    /// With a new mark in the place of an old one. The old one's need and limit still count.
    pub fn with(self, old: Mark, new: Mark) -> Totals
        requires short { HasShortSums new }
        requires fallen { self.fallen < 2 ^ 62 }
        requires risen { self.risen < 2 ^ 62 }
        ensures { result ≡ totals_with self old new }
    {
        Totals {
            fallen: self.fallen.saturating_sub(old.fall) + new.fall,
            risen: self.risen.saturating_sub(old.rise) + new.rise,
            needed: self.needed.max(need_of(new)),
            limit: self.limit.min(limit_of(new)),
        }
    }

    /// Whether with a new mark in the place of an old one the extremes of all follow from it and from
    /// those before: the old one wasn't the only one that needed the most, or had the least limit.
    fn stand(self, old: Mark, new: Mark) -> bool
        requires old { HasShortSums old }
        requires new { HasShortSums new }
        ensures { result ≡ stand self old new }
    {
        (need_of(old) <= need_of(new) || need_of(old) < self.needed)
            && (limit_of(new) <= limit_of(old) || self.limit < limit_of(old))
    }

    /// Those of these marks, of which the new one took the place of the old one. They are made anew only
    /// where the extremes may have been the old one's.
    pub fn after(self, old: Mark, new: Mark, marks: &Vec<OpenMark>, top: u32) -> Totals
        requires before { (self.fallen < 2 ^ 62) × (self.risen < 2 ^ 62) }
        requires old { HasShortSums old }
        requires new { HasShortSums new }
        requires short { All (λ o. HasShortSums o.mark) marks.now.items }
        requires fallen { fallen_of marks.now.items < 2 ^ 62 }
        requires risen { risen_of marks.now.items < 2 ^ 62 }
        requires told { stand self old new ≡ true → totals_with self old new ≡ totals_of top marks.now.items }
        ensures { result ≡ totals_of top marks.now.items }
    {
        if self.stand(old, new) {
            self.with(old, new)
        } else {
            Totals::of(marks, top)
        }
    }

    /// Those of these marks, where the old one was taken out.
    pub fn without(self, old: Mark, marks: &Vec<OpenMark>, top: u32) -> Totals
        requires before { (self.fallen < 2 ^ 62) × (self.risen < 2 ^ 62) }
        requires old { HasShortSums old }
        requires short { All (λ o. HasShortSums o.mark) marks.now.items }
        requires fallen { fallen_of marks.now.items < 2 ^ 62 }
        requires risen { risen_of marks.now.items < 2 ^ 62 }
        requires told { stand self old (unmarked top) ≡ true → totals_with self old (unmarked top) ≡ totals_of top marks.now.items }
        ensures { result ≡ totals_of top marks.now.items }
    {
        self.after(old, Mark::unmarked(top), marks, top)
    }

    /// Whether by these all is firm, so that nobody keeps anybody from what he did last.
    pub fn are_firm(self, base: u32) -> bool
        requires fallen { self.fallen < 2 ^ 63 }
        requires risen { self.risen < 2 ^ 63 }
        requires needed { self.needed < 2 ^ 63 }
        ensures { (result ≡ true) ↔ AreFirm base self }
    {
        self.fallen + self.needed <= u64::from(base) && u64::from(base) + self.risen < self.limit
    }
}
