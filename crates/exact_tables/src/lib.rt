//! Exact relations and least conflict tables: which states look like which over all lists of
//! operations, what distinguishes the others, and which pairs of operations have to conflict.
#![tactic(auto)]

mod distances;
mod laws;
mod predecessors;
mod rounds;
mod search;
mod telling;

pub use distances::Distances;
pub use laws::{
    covers_exactly, covers_strongly_exactly, exact_is_greatest, exact_simulates, greatest_is_exact,
    made_is_least,
};
pub use telling::distinguish;

pub mod worked;
