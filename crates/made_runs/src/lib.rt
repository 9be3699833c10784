//! Runs that commands make, with the answers that a store gives, and the converse of the headline at a
//! store. Definitions and laws alone.
#![tactic(auto)]

mod laws;

pub use laws::{
    runs_are_made, store_cover_is_exact, store_makes_witness, store_undo_is_exact,
    store_yes_is_exact,
};

pub mod worked;
