//! What is asked of an attempt, and what comes of it.

use serial_order::Refusal;
use type_table::Operation;

/// A call of an attempt.
#[derive(Clone, Copy)]
pub struct AttemptCall<'a> {
    /// The number of an object.
    pub at: u32,
    /// The bytes of the call's name.
    pub name: &'a [u8],
}

/// What came of an attempt.
#[derive(Drop)]
pub enum Attempt {
    /// Its transaction committed. Here is the operation of each call, in order.
    Done(Vec<Operation>),
    /// The call at this place, counted from 0, ended it: its transaction was aborted.
    Ended { at: usize, how: Ending },
    /// No transaction began, and nothing has changed.
    NotBegun(Refusal),
}

/// How a call ended an attempt.
#[derive(Clone, Copy, Debug, PartialEq, Eq)]
pub enum Ending {
    /// An operation of this transaction keeps it out.
    Busy(u32),
    /// None of its operations is legal.
    None,
    /// It was refused: `NoObject`, `NoCall`, or `NoMemory` where there was none for its operation.
    Refused(Refusal),
}

/// The call that isn't replied to, behind which none is made.
#[derive(Clone, Copy)]
pub struct Stop {
    /// Its place, counted from 0.
    pub at: usize,
    pub how: Ending,
}
