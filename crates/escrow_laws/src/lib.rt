//! The theory of escrow: numbers that open transactions give to and take from, each without seeing
//! the others.
#![tactic(auto)]

mod bounded;
mod bounds;
mod laws;
mod mark;
mod numeric_fault;
mod op_bounds;

pub use bounded::Bounded;
pub use bounds::{first_fault, numeric};
pub use laws::{
    admitted_where_safe, base_is_serial, bounds_are_numeric, bounds_are_told, extremes_tell_firm,
    fall_is_lowest, firm_after_apply, firm_after_commit, firm_after_strike, firm_is_legal,
    firm_is_safe, firm_keeps_nobody, fresh_is_firm, marks_are_exact, marks_fit, marks_tell,
    marks_tell_firm, nothing_keeps, numbers_have_tables, numeric_is_faultless, rise_is_highest,
    safe_is_firm, sums_fit,
};
pub use mark::{Mark, OpenMark};
pub use numeric_fault::NumericFault;
pub use op_bounds::OpBounds;

pub mod worked;
