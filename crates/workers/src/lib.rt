//! Workers over one store: each does its jobs, one store call in a turn.
#![tactic(auto)]

mod drawn;
mod fault;
mod gate;
mod laws;
mod pauses;
mod returned;
mod run;
mod shared;
mod team;

pub use drawn::{pick, stress};
pub use fault::WorkFault;
pub use gate::{Gate, NoGate};
pub use laws::{ending_is_worked, letting_in_is_kept, start_is_kept, turns_are_kept};
pub use returned::Worked;
pub use run::run_workers;
pub use worker_turns::{Outcome, Receipt, Report};

pub mod worked;
