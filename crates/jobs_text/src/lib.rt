//! Texts of jobs: the objects of a store, and the jobs of each worker.
#![tactic(auto)]

mod build;
mod job_line;
mod job_lines;
mod jobs_file;
mod read;

pub use jobs_file::{Job, JobsFile};
pub use line_text::{FaultKind, TextFault};
pub use read::read_jobs;
pub use store_text::ObjectLine;

pub mod worked;
