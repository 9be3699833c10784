//! Objects of a stranger's kind of recovery.

pub mod boxed;
pub mod one_entry;
