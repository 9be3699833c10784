//! The text of `explain`: the letter of each pair, the run that breaks without it, what mends a file,
//! and the bounds of numbers.
#![tactic(auto)]

mod numeric;
mod pair_lines;
mod write;

pub use numeric::{write_bounds, write_why_not};
pub use pair_lines::write_pair;
pub use write::write_rows;
