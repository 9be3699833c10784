//! Made files: the tables of a type made anew, which states look like which and which pairs of
//! operations have to conflict; and the file of a family of types.
#![tactic(auto)]

mod family;
mod made_conflicts;
mod made_file;
mod make_error;
mod names;

pub use family::{FamilyRules, make_file, push_replies, push_two, where_legal};
pub use made_file::make_tables;
pub use make_error::MakeError;
pub use names::{named, numbered, prefixed};
