//! Deferred update: an object whose transactions see their own operations alone until they commit.
#![tactic(auto)]

mod entries;
mod manager;
mod packing;
mod views;
pub mod worked;

pub use manager::IntentionsManager;
pub use object_trait::WrongKind;
