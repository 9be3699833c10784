//! Events of a history into which operations were carried, which are done again.

ghost use Rattle.std.specs.Prelude.{◌≡◌, ◌↔◌, true, false, slice_get, IsTrue};
ghost use Rattle.object_trait.specs.declared.event.EventKind.TheVariants as kind;
ghost use Rattle.serial_order.specs.History.{is_open, summary};
ghost use Rattle.serial_order.specs.Machine.{MayDo};
ghost use Rattle.serial_order.specs.Replay.{is_history_full};
ghost use Rattle.store_laws.specs.Stored.{objects};
ghost use Rattle.store.specs.Retraces.{IsAdmitted, IsRetraced, Retraces};

use crate::event_replay::{Stray, follow};
use crate::room::has_room;
use crate::store::Store;
use object_trait::{Event, EventKind, Recovery};
use serial_order::{allows_alike, run_goes_on, stopper_is_blocker};
use std::alloc::AllocError;
use store_laws::rows_are_counted;
use type_table::Operation;

/// Does an event again, as the worker that made it: an operation where the locks admit it, whatever its call would
/// be answered; any other event as `follow`.
///
/// # Errors
///
/// `NotMade` where the locks don't admit the operation or no command makes the event after those so far, or
/// `NoMemory`, and the store is as it was.
pub fn retrace<R: Recovery>(store: &mut Store<R>, event: &Event) -> Result<(), Stray>
    ensures { Retraces store.old event.now result store.new }
{
    match event.kind {
        EventKind::Op { t, x, k } => retrace_op(store, event.worker, t, x, k),
        _ => follow(store, event),
    }
}

/// Does operation k of transaction t at object x again.
fn retrace_op<R: Recovery>(
    store: &mut Store<R>,
    w: u8,
    t: u32,
    x: u32,
    k: Operation,
) -> Result<(), Stray>
    ensures { Retraces store.old (record { worker = w; kind = kind.Op k t x }) result store.new }
{
    run_goes_on();
    // (read for its clause that the history is a run)
    store.history();
    if !store.may_redo(w, t, x, k) {
        return Err(Stray::NotMade);
    }
    match store.execute_again(w, t, x, k) {
        Ok(()) => Ok(()),
        Err(AllocError) => Err(Stray::NoMemory),
    }
}

impl<R: Recovery> Store<R> {
    /// Whether the locks admit operation k of transaction t at object x, whatever its call would be answered, and
    /// there is room for it.
    fn may_redo(&self, w: u8, t: u32, x: u32, k: Operation) -> bool
        ensures { IsTrue result ↔ IsRetraced self.now (record { worker = w; kind = kind.Op k t x }) }
    {
        if !self.is_open(t) {
            return false;
        }
        self.admits(t, x, k) && self.has_room_for_one()
    }

    /// Whether the history has room for one more event.
    fn has_room_for_one(&self) -> bool
        ensures { IsTrue result ↔ (is_history_full self.now.limits self.now.history 1 ≡ false) }
    {
        rows_are_counted();
        let opened = self.transactions.open_count();
        has_room(self.forgotten, &self.history, opened, 1, self.limits.events)
    }

    /// Whether the locks admit operation k of transaction t, which is open, at object x.
    fn admits(&self, t: u32, x: u32, k: Operation) -> bool
        requires { is_open (summary self.now.history) t ≡ true }
        ensures { IsTrue result ↔ MayDo (slice_get (objects self.now) x) (summary self.now.history) x t k }
    {
        allows_alike();
        stopper_is_blocker();
        match self.objects.get(x as usize) {
            Some(object) => is_admitted(object, t, k),
            None => false,
        }
    }
}

/// Whether an object has operation k, which is legal for t there, and nobody keeps t from it.
fn is_admitted<R: Recovery>(object: &R, t: u32, k: Operation) -> bool
    ensures { IsTrue result ↔ IsAdmitted (R.meaning object.now) t k }
{
    object.declared().op(k).is_some() && object.legal(t, k) && object.blocker(t, k).is_none()
}
