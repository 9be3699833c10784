//! Laws of simulations: each is a function that does nothing, whose contract is the law.

ghost use Rattle.equi_cert.specs.Laws.{SimulationLooks, EndsLook, SamePairs};

/// The first state of a pair of a simulation looks like the second, over all lists of operations.
pub fn simulation_looks()
    ensures { SimulationLooks }
{}

/// Where two lists of operations end in a pair of a simulation, the first end looks like the second.
pub fn ends_look()
    ensures { EndsLook }
{}

/// Two relations of the same states are equal where they have the same pairs.
pub fn same_pairs()
    ensures { SamePairs }
{}
