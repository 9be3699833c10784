//! What the crates of tests share: texts of types, outputs that stop, and how values are printed.
#![tactic(auto)]

pub mod printed;
pub mod sinks;
pub mod texts;
pub mod type_texts;
