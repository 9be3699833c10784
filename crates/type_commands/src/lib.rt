//! The commands over types: `check`, `explain`, `make` and `tables`.
#![tactic(auto)]

mod asked_type;
mod check;
mod explain;
mod laws;
mod make;
mod request;
mod rows;
mod tables;
mod write;

pub use check::check_file;
pub use explain::explain_file;
pub use laws::{bounds_by_amount, says_yes_of_made, says_yes_of_tables};
pub use make::make_family;
pub use tables::make_tables_of;

pub mod worked;
