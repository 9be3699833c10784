//! Laws of objects in escrow in runs of the machine.
#![tactic(auto)]

mod laws;

pub use laws::{
    escrow_admits_the_safe, legal_ends_are_safe, no_store_admits_more, safe_ends_are_legal,
    stores_admit_the_safe, unsafe_breaks,
};

pub mod worked;
