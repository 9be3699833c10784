//! Texts of numbers that have no table: what is read and written of a number file.
#![tactic(auto)]

mod build;
mod laws;
mod number_grammar;
mod number_line;
mod read;
mod write;

pub use laws::{canonical_is_read, written_is_read};
pub use line_text::{FaultKind, TextFault};
pub use read::read_number;
pub use write::write_number;

pub mod worked;
