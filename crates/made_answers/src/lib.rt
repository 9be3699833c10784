//! What the checker answers to what is made: a made file, the file of a family, a made number.
#![tactic(auto)]

mod laws;

pub use laws::{
    alone_is_strong, amounts_are_accepted, elements_are_accepted, exact_answers, exact_strength,
    families_are_accepted, families_have_closed_sets, lone_states_are_strong, made_is_accepted,
    made_is_exact, made_is_strong, numbers_are_accepted, numeric_is_strong,
    queues_have_lone_states, seats_have_lone_states, semiqueues_have_lone_states,
    sets_have_lone_states,
};

pub mod worked;
