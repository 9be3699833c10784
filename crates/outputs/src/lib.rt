//! What texts are written to: outputs that take bytes and keep the fault that stopped them, an output
//! that gathers, and the loops that write whole pieces.
#![tactic(auto)]

mod gathered;
mod laws;
mod number_line;
mod out;
mod pieces;
mod sink;

pub use gathered::Gathered;
pub use laws::{items_in_turn, texts_in_turn};
pub use number_line::{LONGEST, spell_line};
pub use out::{Failed, Out, OutFault};
pub use pieces::{put, put_all, put_line};
pub use sink::Sink;

pub mod worked;
