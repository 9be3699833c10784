//! What the exports of the static library do, on values: what a handle holds, in numbers and words that cross to C.
//!
//! Its calls answer codes (`code.rt`).
#![tactic(auto)]

pub mod attempt_calls;
pub mod attempt_numbers;
pub mod call_numbers;
pub mod checked_types;
mod code;
pub mod event_rooms;
mod event_words;
pub mod families;
mod held;
pub mod made_events;
mod one_call;
mod operations;
mod parameters;
pub mod renewals;
pub mod store_calls;
pub mod store_objects;
pub mod store_reads;
pub mod texts;
pub mod type_parts;
mod words;

pub use code::Code;
pub use event_words::{ColockEvent, events_are_read_again};
pub use held::Held;
pub use words::{ColockAnswer, ColockFault, ColockOutcome, ColockShape, kind_at, shape_of};
