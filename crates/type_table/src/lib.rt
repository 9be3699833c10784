//! Types of shared objects as finite tables: their operations, states and steps, sets of states,
//! and which operations conflict.
#![tactic(auto)]

mod conflict_table;
mod kind;
mod laws;
mod limits;
mod name;
mod op;
mod operation;
mod state_set;
mod table;
mod table_error;
mod table_kind;

pub use conflict_table::ConflictTable;
pub use kind::Kind;
pub use laws::{
    ends_inside, ends_within, equi_after, equi_extends, legal_ends, lists_backward,
    lists_backward_both_ways, lists_forward, looks_after, looks_extends, runs_alike, runs_along,
    steps_within,
};
pub use limits::{
    LONGEST_HISTORY, LONGEST_LINE, LONGEST_NAME, MOST_EVENTS, MOST_OPS, MOST_STATES, MOST_TRIES,
    MOST_WORKERS, limits_agree,
};
pub use name::Name;
pub use op::Op;
pub use operation::Operation;
pub use state_set::StateSet;
pub use table::TypeTable;
pub use table_error::TableError;
pub use table_kind::TableKind;

pub mod worked;
