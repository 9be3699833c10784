//! Objects of any kind of recovery under one type, without a box.
#![tactic(auto)]

mod fresh;
mod object;

pub use fresh::new_objects;
pub use object::Object;
