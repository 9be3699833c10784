//! Numbers without a table: a type whose states are the numbers from 0 to a greatest one, its calls, its operations
//! and their bounds.
#![tactic(auto)]

mod bounds;
mod call_names;
mod laws;
mod number_call;
mod number_file;
mod number_op;
mod rows;

pub use laws::{number_has_table, number_tells_bounds, numbers_answer};
pub use number_call::{NumberCall, is_amount};
pub use number_file::{NumberFile, number_with};
pub use number_op::NumberOp;

pub mod worked;
pub mod worked_places;
