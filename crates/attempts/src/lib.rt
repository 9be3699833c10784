//! A whole transaction in one call: it begins, makes its calls in order, and commits, or aborts at the first
//! that isn't replied to.
#![tactic(auto)]

mod calls;
mod one_call;
mod outcome;
mod transaction;

pub use calls::{make_call, make_call_op};
pub use one_call::{do_call, do_call_op};
pub use outcome::{Attempt, AttemptCall, Ending, Stop};
pub use transaction::{attempt, begin_attempt, end_calls};

pub mod worked;
