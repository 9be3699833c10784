//! The checker: whether a type's conflict table is enough for a kind of recovery, from a finite
//! condition at each state to all lists of operations.
#![tactic(auto)]

mod checked_type;
mod checker;
mod condition;
mod laws;
mod parallel;
mod reach;
mod refusal;
mod scan;
mod still;

pub use checked_type::{CheckedType, condition_of};
pub use checker::{check, check_number, check_parallel};
pub use condition::Condition;
pub use laws::{
    at_is_checked, at_is_strong, number_is_checked, one_answer, strong_yes_covers, yes_covers,
};
pub use refusal::CheckRefusal;
pub use scan::first_failing_state;
pub use type_table::Kind;

pub mod worked;
