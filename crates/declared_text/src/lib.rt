//! Texts that declare a type: what is read and written of a table's file or of a number.
#![tactic(auto)]

mod first_word;
mod read;
mod write;

pub use read::read_declared;
pub use write::write_declared;

pub mod worked;
