//! Histories of transactions, the machine that makes them, commit order and serial order, and when
//! an object represents a history: the laws up to the headline. And those of epochs: histories one
//! after another, each from the states that were kept at the end of the one before it.
#![tactic(auto)]

mod command;
mod entry;
mod epoch_laws;
mod laws;
mod refusal;

pub use command::Command;
pub use entry::Entry;
pub use epoch_laws::{closed_is_epoch, epochs_are_serial, epochs_go_on, states_are_inside};
pub use laws::{
    allows_alike, answer_may_follow, beginners_after, blocker_is_held, busy_names_who_keeps,
    checked_headline, command_appends, commit_keeps_views, first_op_is_least, fresh_represents,
    headline, held_after, history_opens_after, idle_is_closed, logs_are_counted, machine_may_apply,
    numbers_in_run, opens_after, operations_in_run, own_after, replay_runs, replays_join,
    represents_on, run_goes_on, run_is_history, sorts_into_commit_order, stopper_is_blocker,
    struck_view_is_legal, summary_after, survives_as_read, transactions_in_run, views_are_legal,
};
pub use refusal::Refusal;

pub mod worked;
