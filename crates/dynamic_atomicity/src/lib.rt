//! Dynamic atomicity: in each order that keeps what precedes the committed transactions of a run are
//! legal, also over several stores; and which conflict tables that needs. Definitions and laws alone.
#![tactic(auto)]

mod laws;
mod steps;

pub use laws::{
    breaks_are_enough, commit_order_keeps, cover_is_exact, covered_is_atomic, joined_is_atomic,
    joined_is_atomic_living, joined_order, runs_are_atomic, runs_are_atomic_living,
    strong_is_exact, strong_serial_is_exact, undo_breaks, undo_breaks_are_enough,
    undo_serial_is_exact, witness_breaks, yes_is_exact,
};
pub use steps::steps_have_ops;

pub mod worked;
