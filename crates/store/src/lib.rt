//! Transactions over many shared objects.
#![tactic(auto)]

mod call;
mod carried_store;
mod commit_count;
mod committed;
mod conditional_call;
mod current_answer;
mod event_replay;
mod event_retrace;
mod execution;
mod held_objects;
mod held_parts;
mod laws;
mod past;
mod peek;
mod refusals;
mod renewed_objects;
mod room;
mod store;
mod strong_types;
mod unseen_renewal;
mod whole_call;

pub use committed::Snapshot;
pub use event_replay::{ReplayFault, Stray, follow, replay};
pub use event_retrace::retrace;
pub use laws::{renewals_are_serial, steps_are_followed, steps_are_retraced};
pub use object_calls::Answer;
pub use refusals::{CarryRefusal, ExtendRefusal, NewRefusal, PeekRefusal, RenewRefusal};
pub use store::Store;
pub use strong_types::are_strong;

pub mod worked;
