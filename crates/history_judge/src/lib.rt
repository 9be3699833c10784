//! What an audit is made of: a judge of events, one after another, and the run of what transactions commit.
#![tactic(auto)]

mod committed;
mod event_fault;
mod executed;
mod judge;
mod laws;
mod operations;
mod outcome;
mod replay;
mod serial_run;
mod slots;

pub use committed::Committed;
pub use event_fault::EventFault;
pub use executed::Executed;
pub use judge::Judge;
pub use laws::{moved_rows_agree, nothing_began};
pub use operations::Operations;
pub use outcome::{Audit, AuditFault};
pub use serial_run::SerialRun;

pub mod worked;
