//! Escrow: an object whose state is a number, at which each open transaction sees its own operations alone,
//! and does whatever stays legal whatever the others do.
#![tactic(auto)]

mod entries;
mod kept_amount;
mod manager;
mod marks;
mod numeric;
mod totals;
mod way;

pub use manager::EscrowManager;

pub mod worked;
