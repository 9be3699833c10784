//! Orders in which all open transactions are carried into the next epoch, by which no answer can tell that
//! they were: laws, and their first events.
#![tactic(auto)]

mod laws;
mod merging;

pub use laws::{merged_keeps_orders, ordered_is_unseen};
pub use merging::merged_events;
