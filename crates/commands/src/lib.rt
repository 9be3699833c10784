//! What the program does: words, and the files that they name, to a text, a line of a fault, and a status.
#![tactic(auto)]

mod conclusion;
mod console;
mod program;
mod words;

pub use console::{Console, Given};
pub use program::do_words;
pub use words::given_words;
