//! The operations that open transactions hold at one object, and who of them keeps another from an
//! operation.
#![tactic(auto)]

mod compacting;
mod held;
mod op_locks;

pub use held::Held;
pub use op_locks::OpLocks;

pub mod worked;
