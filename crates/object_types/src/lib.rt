//! The checked types of the objects that lines name: of each the one that is declared at its place, accepted
//! for its kind.
#![tactic(auto)]

mod accept;
mod object_fault;

pub use accept::accept_types;
pub use object_fault::ObjectFault;

pub mod worked;
