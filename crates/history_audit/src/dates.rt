//! How many transactions had committed before another one, for the last time, executed an operation that survives.

ghost use Rattle.std.specs.Prelude.{◌≡◌, ◌+◌, ◌-◌, ◌<◌, ◌==◌, ℕ, false, length, IfOk, get_or, slice_set, if◌then◌else◌, min, max};
ghost use Rattle.serial_order.specs.History.{aborts, commits};
ghost use Rattle.serial_order.specs.Operations.{is_among};
ghost use Rattle.history_audit.specs.OrderTests.{IsDate};
ghost use Rattle.history_audit.specs.Dates.{AreDatesFrom};

use object_trait::{Event, EventKind};
use serial_order::survives_as_read;
use std::alloc::{AllocError, Global};

/// What is kept of the last events.
#[derive(Drop)]
struct Dates {
    // how many transactions commit before them
    committed: usize,
    // by the transaction's number: how many of its operations before them they take back
    taken_back: Vec<usize>,
    // how many transactions commit before its last operation among them that survives, or 0
    dates: Vec<usize>,
}

/// For each transaction whose number is below `above`, how many commit before its last operation that survives. Where
/// it didn't abort, these are the ones that precede it.
pub fn dates_of(
    alloc: Global,
    events: &[Event],
    committed: usize,
    above: usize,
) -> Result<Vec<usize>, AllocError>
    requires { committed ≡ length (commits events.now) }
    ensures long { IfOk result (λ them. length them.items ≡ above) }
    ensures dates { IfOk result (λ them. (u : ℕ) → u < above → is_among (aborts events.now) u ≡ false → IsDate events.now u (get_or them.items u 0)) }
{
    let mut last = Dates {
        committed,
        taken_back: vec![in alloc; 0; above]?,
        dates: vec![in alloc; 0; above]?,
    };
    let mut at = events.len();
    'events: while at > 0 {
        at -= 1;
        last.take(events, at);
    }
    Ok(last.dates)
}

impl Dates {
    /// Takes the event at this place, before those that were taken.
    fn take(&mut self, events: &[Event], at: usize)
        requires inside { at < length events.now }
        requires so_far { AreDatesFrom (at + 1) events.now self.old }
        ensures taken { AreDatesFrom at events.now self.new }
        ensures long { length self.new.dates.items ≡ length self.old.dates.items }
    {
        let event = events[at];
        match event.kind {
            EventKind::Op { t, .. } => self.op(t),
            EventKind::Commit { .. } => self.committed -= 1,
            EventKind::Rollback { t, n } => self.rollback(t, n),
            _ => {}
        }
    }

    /// An operation of t: it is one of those that are taken back, or survives.
    fn op(&mut self, t: u32)
        requires { length self.old.taken_back.items ≡ length self.old.dates.items }
        ensures committed { self.new.committed ≡ self.old.committed }
        ensures taken_back { self.new.taken_back.items ≡ slice_set self.old.taken_back.items t (get_or self.old.taken_back.items t 0 - 1) }
        ensures dates { self.new.dates.items ≡ slice_set self.old.dates.items t (if get_or self.old.taken_back.items t 0 == 0 then max (get_or self.old.dates.items t 0) self.old.committed else get_or self.old.dates.items t 0) }
    {
        let t = t as usize;
        if t >= self.dates.len() {
            return;
        }
        if self.taken_back[t] > 0 {
            self.taken_back[t] -= 1;
        } else {
            self.dates[t] = self.dates[t].max(self.committed);
        }
    }

    /// A rollback of t, which takes n operations back.
    fn rollback(&mut self, t: u32, n: u32)
        ensures committed { self.new.committed ≡ self.old.committed }
        ensures taken_back { self.new.taken_back.items ≡ slice_set self.old.taken_back.items t (min (get_or self.old.taken_back.items t 0 + n) usize.MAX) }
        ensures dates { self.new.dates ≡ self.old.dates }
    {
        if let Some(count) = self.taken_back.get_mut(t as usize) {
            *count = count.saturating_add(n as usize);
        }
    }
}
