//! Texts of scripts: the objects of a store and the commands that it is asked in turn.
#![tactic(auto)]

mod command_list;
mod commands;
mod fronts;
mod kept_command;
mod names;
mod plain;
mod read;
mod script;

pub use command_list::CommandList;
pub use kept_command::{KeptCommand, KeptCommands};
pub use line_text::{FaultKind, TextFault};
pub use read::read_script;
pub use script::Script;
pub use store_text::ObjectLine;

pub mod worked;
