//! Why a pair of operations of a type has to be in a conflict table, or why it needn't: the run that
//! breaks without it, and what mends a file; and why a type isn't numeric.
#![tactic(auto)]

mod ends;
mod explained;
mod explainer;
mod leads;
mod mends;
mod need;
mod numeric_fault;
mod witness;

pub use explained::{Explained, Row};
pub use explainer::Explainer;
pub use leads::{Lead, Leads};
pub use need::Need;
pub use numeric_fault::{WhyNot, why_not};
pub use witness::Witness;
