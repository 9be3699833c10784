//! Objects with update in place: one state, and a log of what was done since the base, in which each
//! entry keeps the state that it met.
#![tactic(auto)]

mod log;
mod opened;
mod recovery;
mod stepping;
mod undo_entry;
mod undo_manager;

pub use object_trait::WrongKind;
pub use undo_manager::UndoManager;

pub mod worked;
