//! Texts of types: what is read and written of a type file.
#![tactic(auto)]

mod build;
mod entries;
mod heads;
mod laws;
mod read;
mod row;
mod type_grammar;
mod type_line;
mod type_lines;
mod write;

pub use laws::{canonical_is_read, lines_tell_the_file, written_is_read};
pub use line_text::{FaultKind, TextFault};
pub use read::read_type;
pub use write::write_type;

pub mod worked;
