//! The key of a transaction.
#![tactic(auto)]

mod transaction_key;

pub use transaction_key::TransactionKey;

pub mod worked;
