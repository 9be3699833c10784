//! Laws of types and of lists of operations: each is a function that does nothing, whose contract is
//! the law. It calls the laws on which it depends.

ghost use Rattle.type_table.specs.Laws.{RunsAlike, RunsAlong, LooksAfter, LooksExtends, EquiAfter, EquiExtends, StepsWithin, EndsInside, EndsWithin, LegalEnds};
ghost use Rattle.type_table.specs.Lists.{ListsForward, ListsBackward, ListsBackwardBothWays};

/// A run along a list put together is a run along its parts.
pub fn runs_along()
    ensures { RunsAlong }
{}

/// Where a list leads doesn't depend on the state at which a type begins.
#[tactic(auto, using(crate::proofs::Runs::runs_alike))]
pub fn runs_alike()
    ensures { RunsAlike }
{}

/// Extension: what looks like another looks like it after the same operations.
pub fn looks_after()
    ensures { LooksAfter }
{}

/// Extension: what is equieffective to another is so after the same operations.
pub fn equi_after()
    ensures { EquiAfter }
{}

/// Looks-like holds of each state and itself, goes through a third one, and stays so after the same
/// operations.
#[tactic(auto, using(crate::proofs::Runs::looks_extends))]
pub fn looks_extends()
    ensures { LooksExtends }
{}

/// So does equieffective.
#[tactic(auto, using(crate::proofs::Runs::equi_extends))]
pub fn equi_extends()
    ensures { EquiExtends }
{}

/// A step is of an operation of the table, from one of its states to one of its states.
pub fn steps_within()
    ensures { StepsWithin }
{}

/// A list that begins at a state of a closed set ends in the set.
pub fn ends_inside()
    ensures { EndsInside }
{}

/// A list that begins at a state of a table ends at one of its states.
pub fn ends_within()
    ensures { EndsWithin }
{
    steps_within();
    ends_inside();
}

/// What is legal ends somewhere: the list leads to a state.
pub fn legal_ends()
    ensures { LegalEnds }
{}

/// Lists forward: where each operation of one list commutes forward with each of another, and both
/// lists are legal, both orders are legal and their ends are equieffective.
pub fn lists_forward()
    ensures { ListsForward }
{
    runs_along();
    equi_extends();
}

/// Lists backward: where each operation of the later list right commutes backward with each of the
/// earlier one, the lists may be exchanged, and the end looks like the one after the exchange.
pub fn lists_backward()
    ensures { ListsBackward }
{
    runs_along();
    looks_extends();
}

/// Lists backward in the two-way form: the two ends are equieffective.
pub fn lists_backward_both_ways()
    ensures { ListsBackwardBothWays }
{
    runs_along();
    equi_extends();
}
