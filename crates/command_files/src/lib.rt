//! What the commands have in common: the files that they read, the types and the faults of these, what a
//! command answers, and the statuses with which the program ends.
#![tactic(auto)]

mod answer;
mod database_fault;
mod fault;
mod format;
mod order_fault;
mod refusal_line;
mod source;
mod status;
mod type_format;

pub use answer::{put_answer, say_fault};
pub use database_fault::DatabaseFault;
pub use fault::Fault;
pub use format::{Format, read_file};
pub use order_fault::OrderFault;
pub use refusal_line::no_line;
pub use source::{FileSource, Source, SourceFault};
pub use status::{Status, Verdict};
pub use type_format::{DeclaredFormat, TypeFormat};

pub mod worked;
