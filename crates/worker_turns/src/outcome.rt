use object_trait::Event;
use serial_order::Refusal;

/// What came of a job.
#[derive(Clone, Copy, Debug, PartialEq, Eq)]
pub enum Outcome {
    /// This transaction made its calls, each with a reply, and committed.
    Committed(u32),
    /// As many tries as a job may have were broken: a call was answered `Busy` or `None`.
    GaveUp,
    /// The store refused a begin or a call, or there was no memory for a receipt.
    Refused(Refusal),
    /// Its worker wasn't started.
    NotRun,
}

/// An event that a worker made, and its place in the history, counted from 0.
#[derive(Clone, Copy, Debug, PartialEq, Eq)]
pub struct Receipt {
    pub position: usize,
    pub event: Event,
}

/// What a worker noted: the events that it made, in order, and what came of each of its jobs.
#[derive(Drop)]
pub struct Report {
    pub receipts: Vec<Receipt>,
    pub outcomes: Vec<Outcome>,
}
