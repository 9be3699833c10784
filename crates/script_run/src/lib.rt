//! Running a script: its commands are asked of a store one after another, and each line of the text
//! is handed to the output before the next command is asked.
#![tactic(auto)]

mod found_calls;
mod kept;
mod last_aborts;
mod laws;
mod lines;
mod objects;
mod run;
mod script_commands;

pub use kept::write_states;
pub use laws::{
    closing_aborts, closing_ends, commands_replay, run_is_in_range, script_is_by_one,
    script_is_read, text_tells_history,
};
pub use lines::{name_of, number_of};
pub use outputs::{Out, OutFault};
pub use run::run_script;
pub use script_text::Script;

pub mod worked;
