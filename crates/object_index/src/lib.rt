//! The number of an object of a store.
#![tactic(auto)]

mod object_index;

pub use object_index::ObjectIndex;
