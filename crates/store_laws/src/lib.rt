//! What a store keeps beside its history, what that says of the history, and that it goes on agreeing
//! with it by each event.
#![tactic(auto)]

mod laws;

pub use laws::{
    answer_is_defined, answers_as_defined, asked_is_replayed, begin_moves, end_moves,
    has_what_is_struck, new_is_kept, op_moves, places_are_counted, places_are_few,
    places_are_inside, quiet_moves, rollback_moves, room_after, rows_are_counted, rows_are_few,
    rows_say_who_is_open, stays_kept, step_is_asked, types_stay,
};

pub mod worked;
