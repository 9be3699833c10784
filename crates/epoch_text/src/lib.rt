//! The canonical text of a history whose events are in lines already.
#![tactic(auto)]

mod laws;
mod write;

pub use laws::lines_are_canonical;
pub use write::write_epoch;

pub mod worked;
