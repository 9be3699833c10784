//! The commands over the keys in the file of a durable store: `prepared` and `outcome`.
#![tactic(auto)]

mod endings;
mod faults;
mod held_transactions;
mod key_outcome;
mod prepared_list;
mod reading;

pub use key_outcome::tell_outcome;
pub use prepared_list::tell_prepared;

pub mod worked;
