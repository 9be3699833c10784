//! What a store keeps in a SQLite file: tables of values, whose rows are read back as they were written.
#![tactic(auto)]

mod cells;
mod contents;
mod entry;
mod event_lines;
mod event_row;
mod found_file;
mod header;
mod journal;
mod journal_error;
mod kept_outcomes;
mod more_rows;
mod new_file;
mod new_table;
mod numbers;
mod object_row;
mod outage;
mod outcome_index;
mod outcome_row;
mod place_row;
mod prepared_row;
mod row_places;
mod schema;
mod single_event;
mod state_row;
mod swept_rows;
mod table;

pub use contents::FileContents;
pub use entry::Entry;
pub use header::{FORMAT, Header};
pub use journal::Journal;
pub use journal_error::JournalError;
pub use object_row::TypeText;
pub use outage::{commit_and_restart, restart};
pub use outcome_row::{KeyedOutcome, Outcome, ReplyText};
pub use prepared_row::{GivenName, Prepared};
pub use state_row::FirstState;
pub use table::{append, read_all};

pub mod worked;
