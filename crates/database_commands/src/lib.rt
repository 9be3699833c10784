//! The commands over the file of a durable store: `create`, `extend`, `history`, and `audit --database`.
#![tactic(auto)]

mod database_audit;
mod faults;
mod history;
mod more_objects;
mod new_store;

pub use database_audit::audit_database;
pub use faults::{fault_of_file, fault_of_making, fault_of_open, fault_of_unopened};
pub use history::tell_history;
pub use more_objects::extend_store;
pub use new_store::{NewStore, create_store, read_objects, texts_of, types_among};
