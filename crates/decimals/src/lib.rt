//! The decimal digits of numbers: which words of digits are numbers, and which ones.
#![tactic(auto)]

mod long_number;
mod number;

pub use long_number::long_number_of;
pub use number::{MOST_DIGITS, has_leading_zero, is_digit, number_of};

pub mod worked;
