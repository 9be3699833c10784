//! The lines of events, as the file of a store keeps them.
#![tactic(auto)]

mod event_group;
mod event_word;
mod laws;
mod read;
mod write;

pub use event_group::EventGroup;
pub use event_word::EventWord;
pub use laws::{lines_are_read_back, numbers_are_short};
pub use read::events_in;
pub use write::push_event;

pub mod worked;
