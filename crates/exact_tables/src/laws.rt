//! Laws of exact relations and of made tables: each is a function that does nothing, whose contract is
//! the law. It calls the laws on which it depends.

ghost use Rattle.exact_tables.specs.Laws.{ExactSimulates, ExactIsGreatest, GreatestIsExact, CoversExactly, CoversStronglyExactly, MadeIsLeast};

use equi_cert::simulation_looks;
use type_table::steps_within;

/// An operation has at most one next state, so the relation that has exactly the pairs of which one
/// looks like the other is a simulation.
pub fn exact_simulates()
    ensures { ExactSimulates }
{
    steps_within();
}

/// And no simulation has a pair that it doesn't have: it is the greatest.
pub fn exact_is_greatest()
    ensures { ExactIsGreatest }
{
    simulation_looks();
}

/// The converse: a simulation that has each pair of each simulation is exact.
pub fn greatest_is_exact()
    ensures { GreatestIsExact }
{
    steps_within();
    simulation_looks();
}

/// Where the relation is exact, a conflict table covers its type over all lists of operations exactly
/// where it has each pair that fails at a state of the set.
pub fn covers_exactly()
    ensures { CoversExactly }
{
    steps_within();
}

/// And strongly exactly where it has each pair that fails the stronger condition.
pub fn covers_strongly_exactly()
    ensures { CoversStronglyExactly }
{
    steps_within();
}

/// So the made table is the least that covers: another covers exactly where it has each of its pairs.
pub fn made_is_least()
    ensures { MadeIsLeast }
{
    covers_exactly();
}
