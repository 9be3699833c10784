//! Room in the history, for events and for the end of each open transaction; and a place for each object more.

ghost use Rattle.std.specs.Prelude.{◌≡◌, ◌+◌, length, nat_le};
ghost use Rattle.store.specs.Room.{MakesRoom};

use crate::store::Store;
use object_trait::{Event, Recovery};
use serial_order::Refusal;
use store_laws::rows_are_counted;

impl<R: Recovery> Store<R> {
    /// Makes room in memory for this many further events and the end of each open transaction, where the
    /// limit leaves it. It is no event.
    ///
    /// # Errors
    ///
    /// `HistoryFull`, or `NoMemory`. The store is as it was in any case.
    pub fn make_room(&mut self, further: u32) -> Result<(), Refusal>
        ensures same { self.new ≡ self.old }
        ensures made { MakesRoom self.old further result }
    {
        rows_are_counted();
        let opened = self.transactions.open_count();
        if !has_room(
            self.forgotten,
            &self.history,
            opened,
            further,
            self.limits.events,
        ) {
            return Err(Refusal::HistoryFull);
        }
        if self
            .history
            .reserve(opened as usize + further as usize)
            .is_err()
        {
            return Err(Refusal::NoMemory);
        }
        Ok(())
    }

    /// Whether the limit has places for so many objects more.
    pub(crate) fn has_place_for(&self, more: usize) -> bool
        ensures { result ≡ nat_le (length self.now.types + more) self.now.limits.objects }
    {
        more <= self.limits.objects as usize - self.objects.len()
    }
}

/// Whether the limit leaves room for this many further events and the end of each open transaction.
pub(crate) fn has_room(
    forgotten: u32,
    history: &[Event],
    opened: u32,
    further: u32,
    max_events: u32,
) -> bool
    ensures { result ≡ nat_le (forgotten + length history.now + opened + further) max_events }
{
    forgotten as usize + history.len() + opened as usize + further as usize <= max_events as usize
}
