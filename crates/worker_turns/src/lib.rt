//! A worker's turns at a store: the jobs that it does one after another, and what it notes of them.
#![tactic(auto)]

mod laws;
mod outcome;
mod phase;
mod worker;

pub use laws::{turns_are_counted, turns_are_told};
pub use outcome::{Outcome, Receipt, Report};
pub use phase::Phase;
pub use worker::Worker;

pub mod worked;
