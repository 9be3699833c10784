//! A durable store that one client asks by lines: what each request does, and what it is answered.
#![tactic(auto)]

mod additions;
mod answer_line;
mod answer_text;
mod archive;
mod client;
mod epoch;
mod epoch_limits;
mod extension;
mod held_text;
mod held_transactions;
mod keys;
mod laws;
mod names;
mod reads;
mod serve_fault;
mod server;
mod service;
mod session;
mod votes;
mod whole;

pub use additions::{Added, AdditionFault, Additions, NoAdditions};
pub use answer_line::{AnswerLine, Answered, HeldTransaction, KeyRefusal, Moment};
pub use answer_text::write_answer;
pub use archive::{Archive, ArchiveFault, NoArchive};
pub use client::Client;
pub use epoch_limits::EpochLimits;
pub use extension::Extension;
pub use laws::{
    each_transaction_has_one_name, names_stay_apart, no_begin_drains_where_all_goes_over,
    told_answers_are_found, told_commits_are_found, told_keys_are_found,
    told_transactions_are_found,
};
pub use names::{Carried, Names};
pub use serve_fault::ServeFault;
pub use server::Server;
pub use service::serve;
pub use session::Session;

pub mod worked;
