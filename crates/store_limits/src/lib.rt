//! What a store may have.
#![tactic(auto)]

mod limits;

pub use limits::{Limits, MOST_OF_EACH};

pub mod worked;
