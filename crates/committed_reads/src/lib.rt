//! Transactions that only read committed states: laws, and the test for operations that change nothing.
#![tactic(auto)]

mod laws;
mod still_operations;

pub use laws::{readers_are_serial, reads_are_serial, still_changes_nothing};
pub use still_operations::{is_still, is_still_call};

pub mod worked;
