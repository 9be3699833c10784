//! What is kept of an open transaction's operations at a number, and what is asked of it at a call.

ghost use Rattle.std.specs.Prelude.{◌≡◌, ◌<◌, ◌^◌};
ghost use Rattle.escrow_laws.specs.Marks.{unmarked, mark_after, is_legal_from, is_low, is_high, mark_keeps};

use crate::bounded::Bounded;

/// What is kept of a transaction's operations, however many they are. Where they are legal from some
/// number from 0 to `top`, none of the five is above `top`, but `ceiling` may be one more.
#[derive(Clone, Copy, Debug, PartialEq, Eq)]
pub struct Mark {
    /// How far below where it began the number is at the lowest along them.
    pub fall: u64,
    /// How far above at the highest.
    pub rise: u64,
    /// How far above its lowest the number is at their end. So they move it by `above - fall` in all.
    pub above: u64,
    /// The least number from which they are legal.
    pub floor: u64,
    /// They are legal from no number from `ceiling` on.
    pub ceiling: u64,
}

/// The mark of one open transaction.
#[derive(Clone, Copy, Debug, PartialEq, Eq)]
pub struct OpenMark {
    pub by: u32,
    pub mark: Mark,
}

impl Mark {
    /// That of no operations, on numbers from 0 to `top`.
    pub fn unmarked(top: u32) -> Mark
        ensures { result ≡ unmarked top }
    {
        Mark {
            fall: 0,
            rise: 0,
            above: 0,
            floor: 0,
            ceiling: u64::from(top) + 1,
        }
    }

    /// With one more operation.
    pub fn marked(self, op: Bounded) -> Mark
        requires fall { self.fall < 2 ^ 63 }
        requires above { self.above < 2 ^ 63 }
        ensures { result ≡ mark_after self op }
    {
        let given = self.above + u64::from(op.gives);
        let fall = self.fall + u64::from(op.takes).saturating_sub(given);
        let above = given.saturating_sub(u64::from(op.takes));
        let floor = (u64::from(op.low) + self.fall).saturating_sub(self.above);
        let ceiling = (u64::from(op.high) + 1 + self.fall).saturating_sub(self.above);
        Mark {
            fall,
            rise: self.rise.max(above.saturating_sub(fall)),
            above,
            floor: self.floor.max(floor),
            ceiling: self.ceiling.min(ceiling),
        }
    }

    /// Whether they are legal from this number, which is at most the greatest.
    pub fn is_legal_from(self, number: u64) -> bool
        ensures { result ≡ is_legal_from self number }
    {
        self.floor <= number && number < self.ceiling
    }

    /// Whether they are legal from the lowest number that the others may leave, where all together
    /// fall so far.
    pub fn is_low(self, base: u32, fallen: u64) -> bool
        ensures { result ≡ is_low base fallen self }
    {
        let others = fallen.saturating_sub(self.fall);
        self.is_legal_from(u64::from(base).saturating_sub(others))
    }

    /// And from the highest, where all together rise so far.
    pub fn is_high(self, base: u32, risen: u64) -> bool
        requires { risen < 2 ^ 63 }
        ensures { result ≡ is_high base risen self }
    {
        let others = risen.saturating_sub(self.rise);
        self.is_legal_from(u64::from(base) + others)
    }

    /// Whether who has the mark `other` keeps who has this one from what it did last, where all
    /// together fall and rise so far.
    pub fn is_kept_by(self, other: Mark, base: u32, fallen: u64, risen: u64) -> bool
        requires { risen < 2 ^ 63 }
        ensures { result ≡ mark_keeps base fallen risen self other }
    {
        let low = self.is_low(base, fallen);
        let high = self.is_high(base, risen);
        if low && high {
            !(other.is_low(base, fallen) && other.is_high(base, risen))
        } else {
            (!low && other.fall > 0) || (!high && other.rise > 0)
        }
    }
}
