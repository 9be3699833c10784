//! The files of a store's objects: scripts, jobs and histories, the type files that are named with them,
//! and the types of the objects, checked or as they are declared.
#![tactic(auto)]

mod formats;
mod found_types;
mod refused_line;
mod several_files;
mod tables;

pub use formats::{HistoryFormat, JobsFormat, ScriptFormat};
pub use found_types::{ObjectTypes, types_for};
pub use refused_line::object_line;
pub use several_files::{read_declared, read_histories};
pub use tables::declared_for;

pub mod worked;
pub mod worked_histories;
pub mod worked_jobs;
