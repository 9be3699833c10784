//! Whether another transaction keeps one from some amount of a call.

ghost use Rattle.std.specs.Prelude.{◌≡◌, ◌↔◌, ◌%◌, ◌/◌, ◌<◌, true, Some, length, slice_get, MatchOption};
ghost use Rattle.type_table.specs.Operation.{operation_at};
ghost use Rattle.number_types.specs.declared.number_call.NumberCall.TheVariants as calls;
ghost use Rattle.number_types.specs.Number.{IsNumber};
ghost use Rattle.declared_types.specs.Declarations.{number_file};
ghost use Rattle.object_trait.specs.Steps.{TellsKept};
ghost use Rattle.escrow_manager.specs.KeptAmount.{IsKeptFrom, IsFreeFrom, IsFreeUpTo, any_call};

use crate::manager::EscrowManager;
use crate::way::{Way, least_amount, most_amount};
use escrow_laws::{extremes_tell_firm, firm_is_legal, marks_are_exact, marks_fit, marks_tell};
use number_types::{NumberCall, NumberFile, number_has_table, number_tells_bounds};
use object_trait::Recovery;
use type_table::Operation;

impl EscrowManager {
    /// Whether u keeps t from an operation of a number's line, whose first place this is. The answer is an
    /// amount: at this place or the next the operation with this amount is legal for t, and u keeps t from it.
    pub(crate) fn number_kept(&self, number: &NumberFile, t: u32, place: u8, u: u32) -> Option<u32>
        requires number { self.now.checked.file ≡ number_file number.now }
        requires place { place % 2 ≡ 0 }
        ensures { TellsKept self.now t place u result }
    {
        number_has_table();
        let Some(call) = call_at(number, place) else {
            return None;
        };
        match call {
            NumberCall::TakeAny => self.any_kept(number, Way::Take, t, place, u),
            NumberCall::GiveAny => self.any_kept(number, Way::Give, t, place, u),
            NumberCall::Value => self.value_kept(number, t, place, u),
            NumberCall::Take(_) | NumberCall::Give(_) | NumberCall::AtLeast(_) => None,
        }
    }

    /// The same of a call of any amount.
    ///
    /// Few amounts are tried. The more is taken, or given, the more transactions keep t, until all of
    /// those do that move the number at all; and the more do so alone. So if u keeps t from some amount, it
    /// does so from the least from which it does, from the least that is too much for t beside all others, or
    /// from the least that is too much beside u alone. The more is refused, the fewer keep t. So if u keeps t
    /// from such a refusal, it does so from the last that is untrue beside all others, or beside u alone.
    fn any_kept(&self, number: &NumberFile, way: Way, t: u32, place: u8, u: u32) -> Option<u32>
        requires number { self.now.checked.file ≡ number_file number.now }
        requires place { place % 2 ≡ 0 }
        requires call { slice_get number.now.calls (place / 2) ≡ Some (any_call way) }
        ensures { TellsKept self.now t place u result }
    {
        marks_are_exact();
        marks_fit();
        marks_tell();
        extremes_tell_firm();
        firm_is_legal();
        number_tells_bounds();
        // (read for what is known of a number)
        let _calls = number.calls();
        let top = number.max();
        let base = self.state();
        let totals = self.totals();
        let own = self.mark_of(t);
        let other = self.mark_of(u);
        let down = totals.fallen.saturating_sub(own.fall);
        let up = totals.risen.saturating_sub(own.rise);
        let kept = way.first_kept(base, totals, own, other);
        let beyond = way.first_beyond(top, base, own, down, up);
        let alone = way.first_beyond(top, base, own, other.fall, other.rise);
        let refused = way.last_refused(top, base, own, down, up);
        let untrue = way.last_refused(top, base, own, other.fall, other.rise);
        if let Some(n) = self.kept_with(number, way, t, place, kept, u) {
            return Some(n);
        }
        if let Some(n) = self.kept_with(number, way, t, place, beyond, u) {
            return Some(n);
        }
        if let Some(n) = self.kept_with(number, way, t, place, alone, u) {
            return Some(n);
        }
        if let Some(n) = self.kept_up_to(number, way, t, place + 1, refused, u) {
            return Some(n);
        }
        self.kept_up_to(number, way, t, place + 1, untrue, u)
    }

    /// The same of a read of the value.
    fn value_kept(&self, number: &NumberFile, t: u32, place: u8, u: u32) -> Option<u32>
        requires number { self.now.checked.file ≡ number_file number.now }
        requires place { place % 2 ≡ 0 }
        requires call { slice_get number.now.calls (place / 2) ≡ Some calls.Value }
        ensures { TellsKept self.now t place u result }
    {
        marks_are_exact();
        marks_fit();
        firm_is_legal();
        number_has_table();
        number_tells_bounds();
        // (read for what is known of a number, and of this object)
        let _calls = number.calls();
        let _totals = self.totals();
        let n = self.seen(t);
        if self.is_kept_from(t, Operation::with(place, n), u) {
            Some(n)
        } else {
            None
        }
    }

    /// The least amount from `start` on with which a call has operations, if u keeps t from the one at this place.
    fn kept_with(
        &self,
        number: &NumberFile,
        way: Way,
        t: u32,
        place: u8,
        start: u64,
        u: u32,
    ) -> Option<u32>
        requires { self.now.checked.file ≡ number_file number.now }
        ensures { MatchOption result
            (IsFreeFrom number.now way self.now t place u start)
            (λ n. IsKeptFrom self.now t (operation_at place (Some n)) u) }
    {
        let n = least_amount(number, way, start)?;
        if self.is_kept_from(t, Operation::with(place, n), u) {
            Some(n)
        } else {
            None
        }
    }

    /// The greatest amount up to `stop` with which it has operations, if u keeps t from the one at this place.
    fn kept_up_to(
        &self,
        number: &NumberFile,
        way: Way,
        t: u32,
        place: u8,
        stop: u64,
        u: u32,
    ) -> Option<u32>
        requires { self.now.checked.file ≡ number_file number.now }
        ensures { MatchOption result
            (IsFreeUpTo number.now way self.now t place u stop)
            (λ n. IsKeptFrom self.now t (operation_at place (Some n)) u) }
    {
        let n = most_amount(number, way, stop)?;
        if self.is_kept_from(t, Operation::with(place, n), u) {
            Some(n)
        } else {
            None
        }
    }

    /// Whether u keeps t from operation k, which is legal for t.
    fn is_kept_from(&self, t: u32, k: Operation, u: u32) -> bool
        requires { k < length self.now.checked.file.table.ops }
        ensures { (result ≡ true) ↔ IsKeptFrom self.now t k u }
    {
        self.legal(t, k) && self.blocker(t, k) == Some(u)
    }
}

/// The call of the line at whose first place, or second one, this is.
fn call_at(number: &NumberFile, place: u8) -> Option<NumberCall>
    ensures exact { result ≡ slice_get number.now.calls (place / 2) }
    ensures number { IsNumber number.now }
{
    number.calls().get(usize::from(place / 2)).copied()
}
