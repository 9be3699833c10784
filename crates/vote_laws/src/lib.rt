//! Transactions that are prepared: laws of votes and decisions that are asked again, and worked examples.
#![tactic(auto)]

mod laws;

pub use laws::{decisions_are_kept, votes_stay, what_is_decided_stays};

pub mod worked;
