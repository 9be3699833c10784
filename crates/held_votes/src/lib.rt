//! Votes that were answered, after a crash: the law that they are held, and a worked example.
#![tactic(auto)]

mod laws;

pub use laws::{rows_of_a_durable_store_began, told_votes_are_held};

pub mod worked;
