//! Events that are made again.

ghost use Rattle.std.specs.Prelude.{◌≡◌};
ghost use Rattle.store.specs.Replays.{Replays};
ghost use Rattle.store_laws.specs.Words.{as_event};
ghost use Rattle.store.specs.Follows.{Follows, IsByCall, unreplied, made_or_stray, told_stray, stray_of};
ghost use Rattle.object_trait.specs.declared.event.EventKind.TheVariants as kind;

use crate::store::Store;
use object_calls::{Answer, busy_with};
use object_trait::{Event, EventKind, Recovery};
use serial_order::Refusal;
use type_table::Operation;

/// Why a store doesn't follow an event.
#[derive(Clone, Copy, Debug, PartialEq, Eq)]
pub enum Stray {
    /// No command makes it after the events so far.
    NotMade,
    /// Memory was refused.
    NoMemory,
}

/// Where a store doesn't follow a list of events, and why.
#[derive(Clone, Copy, Debug, PartialEq, Eq)]
pub struct ReplayFault {
    /// How many of the events it followed.
    pub at: usize,
    pub why: Stray,
}

/// Makes these events again, one after another.
///
/// # Errors
///
/// The first event that isn't made, or at which memory was refused. The events before it are made.
pub fn replay<R: Recovery>(store: &mut Store<R>, events: &[Event]) -> Result<(), ReplayFault>
    ensures { Replays store.old events.now result store.new }
{
    for at in 0..events.len() {
        if let Err(why) = follow(store, &events[at]) {
            return Err(ReplayFault { at, why });
        }
    }
    Ok(())
}

/// Makes an event again, as the worker that made it: it does the command that makes it.
///
/// A store makes fewer histories than the locks admit: of a call's operations the first legal one, of those
/// that keep it waiting the earliest holder, and no more events than its limit.
///
/// # Errors
///
/// `NotMade` where no command that isn't refused makes it after the events so far, or `NoMemory`, and the
/// store is as it was.
pub fn follow<R: Recovery>(store: &mut Store<R>, event: &Event) -> Result<(), Stray>
    ensures { Follows store.old event.now result store.new }
{
    let w = event.worker;
    match event.kind {
        EventKind::Begin { t } => follow_begin(store, w, t),
        EventKind::Commit { t } => end_of(store.commit(w, t)),
        EventKind::Abort { t } => end_of(store.abort(w, t)),
        EventKind::Rollback { t, n } => end_of(store.rollback(w, t, n)),
        EventKind::Op { t, x, k } => match store.call_of_op(x, k) {
            Some(c) => follow_call(store, event, t, x, c, Answer::Reply(k)),
            None => Err(Stray::NotMade),
        },
        EventKind::Busy { c, t, x, u } => follow_unreplied(store, event, t, x, c, Some(u)),
        EventKind::None { t, x, c } => follow_unreplied(store, event, t, x, c, None),
    }
}

/// Makes the event of a call without a reply again, which says the place of its first operation: that of a call of t
/// at x with this place that is answered so, where there is one.
fn follow_unreplied<R: Recovery>(
    store: &mut Store<R>,
    event: &Event,
    t: u32,
    x: u32,
    place: u8,
    holder: Option<u32>,
) -> Result<(), Stray>
    requires told { unreplied t x place holder ≡ event.now.kind }
    ensures { Follows store.old event.now result store.new }
{
    match store.call_unreplied(t, x, place, holder) {
        Some(c) => follow_call(store, event, t, x, c, busy_with(holder)),
        None => Err(Stray::NotMade),
    }
}

/// Makes the event of a call again: that of t's call c at x, if it is answered so.
fn follow_call<R: Recovery>(
    store: &mut Store<R>,
    event: &Event,
    t: u32,
    x: u32,
    c: Operation,
    answer: Answer,
) -> Result<(), Stray>
    requires by { IsByCall store.old event.now t x c }
    requires told { as_event t x c answer ≡ event.now.kind }
    ensures { Follows store.old event.now result store.new }
{
    made_or_stray(store.call_if(event.worker, t, x, c, answer))
}

/// What becomes of the event of a call.
fn made_or_stray(made: Result<bool, Refusal>) -> Result<(), Stray>
    ensures { result ≡ made_or_stray made }
{
    match made {
        Ok(true) => Ok(()),
        Ok(false) => Err(Stray::NotMade),
        Err(refusal) => Err(stray_of(refusal)),
    }
}

/// Begins the transaction with this number.
fn follow_begin<R: Recovery>(store: &mut Store<R>, w: u8, t: u32) -> Result<(), Stray>
    ensures { Follows store.old (record { worker = w; kind = kind.Begin t }) result store.new }
{
    if t != store.begun() {
        return Err(Stray::NotMade);
    }
    match store.begin(w) {
        Ok(_) => Ok(()),
        Err(refusal) => Err(stray_of(refusal)),
    }
}

/// What becomes of the end or the rollback of a transaction.
fn end_of(ended: Result<(), Refusal>) -> Result<(), Stray>
    ensures { result ≡ told_stray ended }
{
    match ended {
        Ok(()) => Ok(()),
        Err(refusal) => Err(stray_of(refusal)),
    }
}

/// A refusal says that the event isn't made, or that memory was refused.
fn stray_of(refusal: Refusal) -> Stray
    ensures { result ≡ stray_of refusal }
{
    match refusal {
        Refusal::NoMemory => Stray::NoMemory,
        _ => Stray::NotMade,
    }
}
