//! The name of an object.
#![tactic(auto)]

mod object_name;

pub use object_name::{LONGEST_OBJECT_NAME, ObjectName};

pub mod worked;
