//! Texts of histories: the objects of a store and the events of its history, read and written. The
//! outputs are passed on.
#![tactic(auto)]

mod event_line;
mod events;
mod history_file;
mod laws;
mod plain;
mod read;
mod size;
mod write;

pub use history_file::HistoryFile;
pub use laws::{canonical_is_read, comments_tell_nothing, written_is_read};
pub use line_text::{FaultKind, TextFault};
pub use outputs::{Out, OutFault};
pub use read::read_history;
pub use size::canonical_size;
pub use store_text::ObjectLine;
pub use write::{write_event, write_history, write_object, write_size};

pub mod worked;
