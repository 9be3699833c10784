//! Worked examples of the definitions: each function does nothing, and its contract is the example.
#![tactic(auto, unfolding(type_table::specs::Table::next))]

ghost use Rattle.std.specs.Prelude.{◌≡◌, Bool, true, false, [], ◌∷◌, Some, None, List};
ghost use Rattle.equi_cert.specs.Relation.{relates};
ghost use Rattle.type_table.specs.Commute.{Covers};
ghost use Rattle.type_table.specs.ConflictTable.{conflicts};
ghost use Rattle.type_table.specs.Examples.{one_way};
ghost use Rattle.type_table.specs.StateSet.{has};
ghost use Rattle.table_checker.specs.Examples.{counter_file, one_way_file};
ghost use Rattle.exact_tables.specs.Distances.{number_at, distance, distance_to};
ghost use Rattle.exact_tables.specs.Exact.{IsExact, IsExactFile};
ghost use Rattle.exact_tables.specs.Examples.{two_items};
ghost use Rattle.exact_tables.specs.Tell.{Tells, IsDistance, IsDistinguishing, comes_before};

use crate::laws::covers_exactly;
use equi_cert::simulation_looks;
use type_table::TableKind;

pub fn lists_in_ascending_order()
    ensures smaller { comes_before (0 ∷ 2 ∷ []) (1 ∷ 0 ∷ []) ≡ true }
    ensures later { comes_before (1 ∷ 0 ∷ []) (1 ∷ 2 ∷ []) ≡ true }
    ensures itself { comes_before (1 ∷ 0 ∷ []) (1 ∷ 0 ∷ []) ≡ false }
    ensures greater { comes_before (1 ∷ 2 ∷ []) (1 ∷ 0 ∷ []) ≡ false }
    ensures front { comes_before (1 ∷ []) (1 ∷ 0 ∷ []) ≡ true }
{}

pub fn numbers_are_distances()
    ensures alike { distance (record { states = 2; cells = 0 ∷ 3 ∷ 1 ∷ 0 ∷ [] }) 0 0 ≡ None }
    ensures row { number_at (record { states = 2; cells = 0 ∷ 3 ∷ 1 ∷ 0 ∷ [] }) 0 1 ≡ 3 }
    ensures back { distance (record { states = 2; cells = 0 ∷ 3 ∷ 1 ∷ 0 ∷ [] }) 1 0 ≡ Some 1 }
    ensures nothing { distance_to (record { states = 2; cells = 0 ∷ 3 ∷ 1 ∷ 0 ∷ [] }) 1 None ≡ Some 0 }
{}

/// From state 2 q and then r is legal, and from state 0 it isn't; no operation alone distinguishes them.
pub fn q_and_r_tell_two_from_zero()
    ensures { IsDistinguishing one_way (Some 2) (Some 0) (1 ∷ 2 ∷ []) }
{}

/// Two items have room in an empty semiqueue, and not where there is one; of the lists as long that say
/// so, that of two a's is the first.
pub fn two_enqueues_tell_an_empty_semiqueue_from_one_with_an_item()
    ensures { IsDistinguishing two_items (Some 0) (Some 1) (0 ∷ 0 ∷ []) }
{}

/// And the other way round one operation is enough.
pub fn a_dequeue_tells_one_item_from_none()
    ensures { IsDistinguishing two_items (Some 1) (Some 0) (3 ∷ []) }
{}

/// The relation of the one-way type that says that state 3 looks like state 4 is a simulation, and isn't
/// exact: state 1 looks like state 0.
pub fn an_incomplete_relation_is_not_exact()
    ensures { IsExact one_way (relates one_way_file.relation) → ⊥ }
{
    simulation_looks();
    equi_cert::worked::next_states_are_looked_at();
}

/// Whatever covers the counter has the pair of two ups: it is in each table that covers.
pub fn two_ups_are_in_each_table_that_covers()
    ensures file { IsExactFile counter_file }
    ensures each { (rows : List (List Bool)) → Covers TableKind.Intentions counter_file.table (has counter_file.reach) (conflicts rows) → conflicts rows 0 0 ≡ true }
{
    covers_exactly();
    table_checker::worked::counter_with_both_pairs_is_covered();
}
