//! Laws of a worker's turns: each is a function that does nothing, whose contract is the law.

ghost use Rattle.worker_turns.specs.Turns.{TurnsAreTold, TurnsAreCounted};

/// By each turn, the receipts of a worker go on being the parts of its jobs.
#[tactic(auto, using(crate::proofs::Told::turns_are_told))]
pub fn turns_are_told()
    ensures { TurnsAreTold }
{}

/// Each turn takes at least one from those that a worker has left.
#[tactic(auto, using(crate::proofs::Counted::turns_are_counted))]
pub fn turns_are_counted()
    ensures { TurnsAreCounted }
{}
