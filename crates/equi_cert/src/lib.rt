//! Certificates that states of a type look like each other: relations between states, and the
//! check that a relation is a simulation.
#![tactic(auto)]

mod bits;
mod cert_fault;
mod laws;
mod relation;
mod simulation;

pub use cert_fault::CertFault;
pub use laws::{ends_look, same_pairs, simulation_looks};
pub use relation::Relation;
pub use simulation::check_simulation;

pub mod worked;
