//! An event as its line says it, with numbers that may be too great for an event.

ghost use Rattle.std.specs.Prelude.{◌≡◌, ℕ, true};
ghost use Rattle.history_text.specs.Events.{event_in_line, is_in_range, is_worker, is_transaction, is_object, is_operation, is_event_amount};

use object_trait::{Event, EventKind};
use type_table::Operation;

/// What a line of a history says of an event: its worker w, transactions t and u, an object x, an
/// operation by its place k and, where it has one, its amount n, a call by its place c, and how many
/// operations are struck.
#[derive(Clone, Copy)]
pub enum EventLine {
    /// `begin W T`
    Begin {
        w: u32,
        t: u32,
    },
    /// `op W T X K`
    Op {
        w: u32,
        t: u32,
        x: u32,
        k: u32,
    },
    /// `op W T X K N`, with the amount n
    OpOf {
        w: u32,
        t: u32,
        x: u32,
        k: u32,
        n: u64,
    },
    /// `busy W T X C U`
    Busy {
        w: u32,
        t: u32,
        x: u32,
        c: u32,
        u: u32,
    },
    /// `none W T X C`
    Nothing {
        w: u32,
        t: u32,
        x: u32,
        c: u32,
    },
    /// `commit W T`
    Commit {
        w: u32,
        t: u32,
    },
    /// `abort W T`
    Abort {
        w: u32,
        t: u32,
    },
    /// `rollback W T N`
    Rollback {
        w: u32,
        t: u32,
        n: u32,
    },
}

impl EventLine {
    /// Whether the numbers are those of an event, in a text that may have so many objects.
    #[inline(always)]
    pub fn is_in_range(self, objects: u32) -> bool
        ensures { result ≡ is_in_range objects self }
    {
        match self {
            EventLine::Begin { w, t } => is_worker(w) && is_transaction(t),
            EventLine::Op { w, t, x, k } => {
                is_worker(w) && is_transaction(t) && is_object(objects, x) && is_operation(k)
            }
            EventLine::OpOf { w, t, x, k, n } => {
                is_worker(w)
                    && is_transaction(t)
                    && is_object(objects, x)
                    && is_operation(k)
                    && is_amount(n)
            }
            EventLine::Busy { w, t, x, c, u } => {
                is_worker(w)
                    && is_transaction(t)
                    && is_object(objects, x)
                    && is_operation(c)
                    && is_transaction(u)
            }
            EventLine::Nothing { w, t, x, c } => {
                is_worker(w) && is_transaction(t) && is_object(objects, x) && is_operation(c)
            }
            EventLine::Commit { w, t } => is_worker(w) && is_transaction(t),
            EventLine::Abort { w, t } => is_worker(w) && is_transaction(t),
            EventLine::Rollback { w, t, n } => {
                is_worker(w) && is_transaction(t) && 1 <= n && n <= 999_999
            }
        }
    }

    /// The event.
    #[inline(always)]
    pub fn event(self) -> Event
        requires { (objects : ℕ) × (is_in_range objects self ≡ true) }
        ensures { result ≡ event_in_line self }
    {
        match self {
            EventLine::Begin { w, t } => event(w, EventKind::Begin { t }),
            EventLine::Op { w, t, x, k } => {
                let k = Operation::listed(k as u8);
                event(w, EventKind::Op { t, x, k })
            }
            EventLine::OpOf { w, t, x, k, n } => {
                let k = Operation::with(k as u8, n as u32);
                event(w, EventKind::Op { t, x, k })
            }
            EventLine::Busy { w, t, x, c, u } => {
                event(
                    w,
                    EventKind::Busy {
                        t,
                        x,
                        c: c as u8,
                        u,
                    },
                )
            }
            EventLine::Nothing { w, t, x, c } => event(w, EventKind::None { t, x, c: c as u8 }),
            EventLine::Commit { w, t } => event(w, EventKind::Commit { t }),
            EventLine::Abort { w, t } => event(w, EventKind::Abort { t }),
            EventLine::Rollback { w, t, n } => event(w, EventKind::Rollback { t, n }),
        }
    }
}

/// The event of a kind at a worker's call.
#[inline(always)]
fn event(w: u32, kind: EventKind) -> Event
    requires { is_worker w ≡ true }
    ensures { result ≡ record { worker = w; kind = kind } }
{
    Event {
        worker: w as u8,
        kind,
    }
}

fn is_worker(w: u32) -> bool
    ensures { result ≡ is_worker w }
{
    w <= 255
}

fn is_transaction(t: u32) -> bool
    ensures { result ≡ is_transaction t }
{
    t <= 999_999
}

fn is_object(objects: u32, x: u32) -> bool
    ensures { result ≡ is_object objects x }
{
    x < objects
}

fn is_amount(n: u64) -> bool
    ensures { result ≡ is_event_amount n }
{
    n <= 4_294_967_295
}

fn is_operation(k: u32) -> bool
    ensures { result ≡ is_operation k }
{
    k <= 63
}
