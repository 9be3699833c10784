//! Families of types: accounts, counters, sets, semiqueues, stocks, queues, seats and numbers.
#![tactic(auto)]

mod account;
mod amounts;
mod counter;
mod counts;
mod elements;
mod number;
mod queue;
mod seats;
mod semiqueue;
mod set;
mod stock;

pub use account::make_account;
pub use counter::make_counter;
pub use counts::counts_in_order;
pub use number::make_number;
pub use queue::{lists_in_order, make_queue};
pub use seats::{changes_one_seat, make_seats};
pub use semiqueue::make_semiqueue;
pub use set::make_set;
pub use stock::make_stock;

pub mod worked;
