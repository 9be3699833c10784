//! Progress in the small: when a call isn't `Busy`. Definitions and laws alone.
#![tactic(auto)]

mod laws;

pub use laws::{
    alone_is_alone_there, alone_is_not_busy, alone_there_is_answered, alone_there_is_not_busy,
    busy_tells_who, waiting_ends,
};

pub mod worked;
