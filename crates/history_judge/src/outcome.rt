//! What an audit says.

use thiserror::Error;

/// What the audit of a history that it accepts has found.
#[derive(Debug, Drop)]
pub struct Audit {
    /// The committed transactions in commit order.
    pub order: Vec<u32>,
    /// For each object the state after the serial order.
    pub finals: Vec<u32>,
}

/// Why an audit has no yes.
#[derive(Clone, Copy, Debug, PartialEq, Eq, Error)]
pub enum AuditFault {
    /// The event at this place, counted from 0, can't follow those before it. It is the first such one.
    #[error("BadEvent {at}")]
    BadEvent {
        at: usize,
    },
    /// Each event can follow those before it, and this operation isn't legal after those that are serially before
    /// it. It is the first such one in ascending order of these three numbers.
    #[error("IllegalOp {commit_index} {object} {op_index}")]
    IllegalOp {
        /// The place of its transaction in commit order, from 0.
        commit_index: usize,
        /// The object, by its place.
        object: u32,
        /// Its place among the operations of its transaction at this object that survive, from 0.
        op_index: usize,
    },
    /// Memory was refused.
    #[error("NoMemory")]
    NoMemory,
}
