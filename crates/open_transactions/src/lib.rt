//! The transactions of a store: the open ones with their workers and the places of their operations, and of
//! those that ended the fact alone.
#![tactic(auto)]

mod open_transactions;
mod slot_index;

pub use open_transactions::OpenTransactions;

pub mod worked;
