//! A store whose settled commits survive a crash.
#![tactic(auto)]

mod begun_types;
mod calls;
mod denial;
mod durable;
mod ends;
mod extension;
mod format;
mod growth;
mod held_list;
mod kept_outcomes;
mod keyed;
mod limits;
mod new_file;
mod next_store;
mod object_names;
mod open_error;
mod outage;
mod prepared;
mod recovered_store;
mod rollbacks;
mod taken_names;
mod votes;

pub use begun_types::file_types;
pub use denial::Denial;
pub use durable::Durable;
pub use keyed::{KeyState, Keyed, Unfinished, op_at};
pub use limits::file_limits;
pub use new_file::create;
pub use object_names::ObjectNames;
pub use open_error::OpenError;
pub use outage::{restart, settle_and_restart};
pub use recovered_store::{open, open_counted, resume};
pub use votes::{Decision, Verdict, Vote};
