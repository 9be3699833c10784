//! The words of the command line: what they ask for, and the texts of help and version.
#![tactic(auto)]

mod file_help;
mod help;
mod ordered;
mod program;
mod serve;
mod task;
mod words;

pub use help::VERSION;
pub use task::{Task, Topic, WordFault};
pub use words::read_words;
