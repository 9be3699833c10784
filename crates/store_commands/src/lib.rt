//! The commands over stores: `run`, `work` and `stress`, whose audits never say no, and `audit`.
#![tactic(auto)]

mod audit;
mod laws;
mod limits;
mod ordered;
mod run;
mod schedule;
mod several;
mod store_audit;
mod work;

pub use audit::{audit_histories, audit_lines};
pub use laws::{run_is_read, works_are_read};
pub use ordered::audit_ordered;
pub use run::run_file;
pub use schedule::Schedule;
pub use store_audit::audit_types;
pub use work::{Work, work_file};
