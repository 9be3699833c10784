//! Committed states: what is left of an object where all open transactions are left out.
#![tactic(auto)]

mod laws;

pub use laws::{
    closed_is_committed, committed_agrees, committed_is_one, committed_is_there, committed_stays,
};

pub mod worked;
