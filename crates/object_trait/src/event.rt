use type_table::Operation;

/// What happened at one call of a store: the worker that made the call, and which kind of event it
/// is.
#[derive(Clone, Copy, Debug, PartialEq, Eq)]
pub struct Event {
    pub worker: u8,
    pub kind: EventKind,
}

/// The seven kinds of events (Weihl 1988 has an event for an invocation, a response, a commit and an
/// abort; here an operation is both of the first two).
///
/// t and u are transactions by number, x is an object's place in the store, k an operation of its
/// type, and c a call, by the place of the first operation that has its name.
#[derive(Clone, Copy, Debug, PartialEq, Eq)]
pub enum EventKind {
    /// Transaction t began.
    Begin { t: u32 },
    /// Transaction t executed operation k at object x (its operation first: so an event has 20 bytes).
    Op { k: Operation, t: u32, x: u32 },
    /// Each operation of call c that was legal for t at x conflicted with an operation of another
    /// open transaction, the first of them with one of u.
    Busy { c: u8, t: u32, x: u32, u: u32 },
    /// No operation of call c was legal for t at x.
    None { t: u32, x: u32, c: u8 },
    /// Transaction t committed.
    Commit { t: u32 },
    /// Transaction t aborted: all its operations are struck.
    Abort { t: u32 },
    /// The last n operations of transaction t that weren't struck are struck, and t stays open.
    Rollback { t: u32, n: u32 },
}
