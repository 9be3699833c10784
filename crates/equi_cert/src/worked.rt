//! Worked examples of the definitions: each function does nothing, and its contract is the example.

ghost use Rattle.std.specs.Prelude.{◌≡◌, true, false, [], ◌∷◌, Some};
ghost use Rattle.type_table.specs.Run.{Looks};
ghost use Rattle.type_table.specs.Examples.{one_way};
ghost use Rattle.equi_cert.specs.Relation.{relates};
ghost use Rattle.equi_cert.specs.Simulation.{IsSimulation};
ghost use Rattle.equi_cert.specs.Fault.{IsFirstFault};
ghost use Rattle.equi_cert.specs.Examples.{related_by, twin};

use crate::laws::simulation_looks;

pub fn pairs_have_a_direction()
    ensures related { relates ((true ∷ true ∷ []) ∷ (false ∷ true ∷ []) ∷ []) 0 1 ≡ true }
    ensures unrelated { relates ((true ∷ true ∷ []) ∷ (false ∷ true ∷ []) ∷ []) 1 0 ≡ false }
    ensures outside { relates ((true ∷ []) ∷ []) 1 1 ≡ false }
{}

pub fn equal_pairs_are_a_simulation()
    ensures { IsSimulation one_way (related_by 5 []) }
{}

pub fn one_way_is_a_simulation_one_way()
    ensures forward { IsSimulation one_way (related_by 5 ((3, 4) ∷ [])) }
    ensures back { IsSimulation one_way (related_by 5 ((4, 3) ∷ [])) → ⊥ }
{}

pub fn one_way_has_first_faults()
    ensures back { IsFirstFault one_way (related_by 5 ((4, 3) ∷ [])) 4 3 2 }
    ensures initial { IsFirstFault one_way (related_by 5 ((4, 3) ∷ (0, 3) ∷ [])) 0 3 0 }
{}

pub fn one_way_looks()
    ensures { Looks one_way (Some 3) (Some 4) }
{
    simulation_looks();
    one_way_is_a_simulation_one_way();
}

pub fn twin_is_a_simulation_both_ways()
    ensures { IsSimulation twin (related_by 5 ((3, 4) ∷ (4, 3) ∷ [])) }
{}

pub fn twin_has_a_first_fault()
    ensures { IsFirstFault twin (related_by 5 ((3, 4) ∷ (4, 3) ∷ (1, 2) ∷ [])) 1 2 1 }
{}

pub fn next_states_are_looked_at()
    ensures outside { IsFirstFault one_way (related_by 5 ((1, 0) ∷ [])) 1 0 0 }
    ensures inside { IsSimulation one_way (related_by 5 ((1, 0) ∷ (3, 2) ∷ [])) }
{}
