//! The calls of a type, and what a store does at its objects: it answers a call at one of them, and ends or strikes
//! operations of a transaction at all objects where it has some.
#![tactic(auto)]

mod answer;
mod call;
mod call_table;
mod end;
mod lowest;
mod number_calls;
mod place_counts;
mod reply;
mod strike;
mod unreplied;

pub use answer::{Answer, busy_with, choose};
pub use call::{Call, NamedCall};
pub use call_table::CallTable;
pub use end::{End, end_at};
pub use place_counts::PlaceCounts;
pub use reply::reply_at;
pub use strike::strike_at;
pub use unreplied::call_unreplied;

pub mod worked;
