//! The text of what workers did at a store: its history, the kept states, an audit, and what came of
//! each job. The outputs are passed on.
#![tactic(auto)]

mod jobs;
mod kept;
mod laws;
mod write;

pub use jobs::write_jobs;
pub use laws::work_is_read;
pub use outputs::{Out, OutFault};
pub use write::write_work;

pub mod worked;
