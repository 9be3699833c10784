//! Calls of a store, one after another, and what each answers.

use object_trait::{Event, EventKind, Recovery};
use serial_order::Refusal;
use std::process::Abort;
use store::{Answer, Store};
use type_table::Operation;

/// What a call is answered, as plain data: an operation, which has no amount, is told by its place.
#[derive(Clone, Copy)]
pub enum Told {
    Operation(u8),
    Busy(u32),
    None,
    Refused(Refusal),
}

/// A call of a store, and what comes of it.
#[derive(Clone, Copy)]
pub enum Ask {
    /// This transaction begins.
    Begin(u32),
    /// A transaction, an object, the name of a call, and the answer.
    Call(u32, u32, &'static str, Told),
    Commit(u32),
    Abort(u32),
    Rollback(u32, u32),
    /// An object, and the state that is kept of it.
    Kept(u32, u32),
}

/// The worker that calls, and its call.
pub type Row = (u8, Ask);

/// What happens at a store, as plain data: an operation, which has no amount, is told by its place.
#[derive(Clone, Copy)]
pub enum Happening {
    Begin { t: u32 },
    Op { t: u32, x: u32, k: u8 },
    Busy { c: u8, t: u32, x: u32, u: u32 },
    None { t: u32, x: u32, c: u8 },
    Commit { t: u32 },
    Abort { t: u32 },
    Rollback { t: u32, n: u32 },
}

/// What happened: the worker of an event, and what that says.
pub type Happened = (u8, Happening);

/// The event of what happened.
pub fn event_of(happened: &Happened) -> Event {
    let (worker, happening) = *happened;
    let kind = match happening {
        Happening::Begin { t } => EventKind::Begin { t },
        Happening::Op { t, x, k } => EventKind::Op {
            t,
            x,
            k: Operation::listed(k),
        },
        Happening::Busy { c, t, x, u } => EventKind::Busy { c, t, x, u },
        Happening::None { t, x, c } => EventKind::None { t, x, c },
        Happening::Commit { t } => EventKind::Commit { t },
        Happening::Abort { t } => EventKind::Abort { t },
        Happening::Rollback { t, n } => EventKind::Rollback { t, n },
    };
    Event { worker, kind }
}

/// What a call answers that is told so.
fn answer_of(told: Told) -> Result<Answer, Refusal> {
    match told {
        Told::Operation(k) => Ok(Answer::Reply(Operation::listed(k))),
        Told::Busy(u) => Ok(Answer::Busy(u)),
        Told::None => Ok(Answer::None),
        Told::Refused(refusal) => Err(refusal),
    }
}

/// Whether a store answers a call so.
pub fn is_answered<R: Recovery>(store: &mut Store<R>, w: u8, ask: Ask) -> bool {
    match ask {
        Ask::Begin(t) => store.begin(w) == Ok(t),
        Ask::Call(t, x, name, told) => store.call(w, t, x, name) == answer_of(told),
        Ask::Commit(t) => store.commit(w, t) == Ok(()),
        Ask::Abort(t) => store.abort(w, t) == Ok(()),
        Ask::Rollback(t, n) => store.rollback(w, t, n) == Ok(()),
        Ask::Kept(x, state) => store.kept(x) == Some(state),
    }
}

/// That a store answers so.
pub fn answers<R: Recovery>(rt: &impl Abort, store: &mut Store<R>, rows: &[Row]) {
    for (w, ask) in rows {
        assert!(rt; is_answered(store, *w, *ask));
    }
}

/// A store of these objects.
pub fn store_of<R: Recovery>(
    rt: &(impl Abort + AllocGlobal),
    objects: Vec<R>,
    max: u32,
) -> Store<R> {
    match Store::new(rt.alloc(), objects, max) {
        Ok(store) => store,
        Err(_) => panic!(rt; "no store"),
    }
}

/// That a history has these events.
pub fn are_events(rt: &impl Abort, history: &[Event], wanted: &[Happened]) {
    assert!(rt; history.len() == wanted.len());
    for (event, happened) in history.iter().zip(wanted) {
        assert!(rt; *event == event_of(happened));
    }
}

/// Closes a store. That its history then has these events, and that its objects are in these states, and no transaction is
/// open at any.
pub fn is_closed<R: Recovery>(
    rt: &impl Abort,
    store: Store<R>,
    wanted: &[Happened],
    left: &[u32],
) -> Vec<R> {
    let (history, objects) = store.close();
    are_events(rt, &history, wanted);
    assert!(rt; objects.len() == left.len());
    for (object, state) in objects.iter().zip(left) {
        assert!(rt; (object.state() == *state) & (object.open_count() == 0));
    }
    objects
}
