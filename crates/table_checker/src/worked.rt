//! Worked examples of the definitions: each function does nothing, and its contract is the example.
#![tactic(auto, unfolding(crate::specs::Condition::passes_forward, crate::specs::Condition::passes_backward, crate::specs::Condition::passes_both_ways, type_table::specs::Table::next))]

ghost use Rattle.std.specs.Prelude.{◌≡◌, ℕ, true, false, [], ◌∷◌};
ghost use Rattle.type_table.specs.ConflictTable.{conflicts};
ghost use Rattle.type_table.specs.Commute.{Covers};
ghost use Rattle.type_table.specs.Examples.{counter_table, forward_pairs, idle};
ghost use Rattle.type_table.specs.StateSet.{has};
ghost use Rattle.table_checker.specs.Condition.{fails_at, triple_number, PassesEverywhere, IsFirstFailure};
ghost use Rattle.table_checker.specs.Reach.{leaves_at, NeverLeaves, IsFirstLeave};
ghost use Rattle.table_checker.specs.Scan.{PairPasses};
ghost use Rattle.table_checker.specs.Examples.{counter_file, one_way_file, idle_file, no_pairs, ups_alone, no_pairs_of_three};

use crate::condition::Condition;
use crate::laws::yes_covers;
use type_table::TableKind;

pub fn two_ups_fail_where_one_fits()
    ensures room { fails_at Condition.Forward counter_file no_pairs 0 0 0 ≡ false }
    ensures limit { fails_at Condition.Forward counter_file no_pairs 0 0 1 ≡ true }
    ensures full { fails_at Condition.Forward counter_file no_pairs 0 0 2 ≡ false }
{}

pub fn two_downs_fail_where_one_is_left()
    ensures empty { fails_at Condition.Forward counter_file no_pairs 1 1 0 ≡ false }
    ensures last { fails_at Condition.Forward counter_file no_pairs 1 1 1 ≡ true }
    ensures room { fails_at Condition.Forward counter_file no_pairs 1 1 2 ≡ false }
{}

pub fn up_and_down_pass()
    ensures { PairPasses Condition.Forward counter_file 0 1 }
{}

pub fn up_after_a_held_down_fails_where_there_is_no_room()
    ensures room { fails_at Condition.Backward counter_file no_pairs 0 1 1 ≡ false }
    ensures full { fails_at Condition.Backward counter_file no_pairs 0 1 2 ≡ true }
{}

pub fn down_after_a_held_up_fails_where_none_is_left()
    ensures empty { fails_at Condition.Backward counter_file no_pairs 1 0 0 ≡ true }
    ensures some { fails_at Condition.Backward counter_file no_pairs 1 0 1 ≡ false }
{}

pub fn a_pair_of_the_table_fails_nowhere()
    ensures { (s : ℕ) → fails_at Condition.Forward counter_file forward_pairs 0 0 s ≡ false }
{}

pub fn ends_are_related_in_one_direction()
    ensures requested { fails_at Condition.Backward one_way_file no_pairs_of_three 0 1 0 ≡ false }
    ensures exchanged { fails_at Condition.Backward one_way_file no_pairs_of_three 1 0 0 ≡ true }
    ensures both_ways { fails_at Condition.BackwardBothWays one_way_file no_pairs_of_three 0 1 0 ≡ true }
    ensures forward { fails_at Condition.Forward one_way_file no_pairs_of_three 0 1 0 ≡ true }
{}

pub fn a_state_outside_the_set_is_not_looked_at()
    ensures inside { fails_at Condition.Forward idle_file no_pairs 0 0 0 ≡ false }
    ensures outside { fails_at Condition.Forward idle_file no_pairs 0 0 1 ≡ false }
{}

pub fn triples_are_numbered_in_order()
    ensures first { triple_number counter_table 0 0 0 ≡ 0 }
    ensures state { triple_number counter_table 0 0 1 ≡ 1 }
    ensures held { triple_number counter_table 0 1 0 ≡ 3 }
    ensures requested { triple_number counter_table 1 0 0 ≡ 6 }
    ensures last { triple_number counter_table 1 1 2 ≡ 11 }
{}

pub fn counter_without_a_pair_fails_first_at_two_ups()
    ensures { IsFirstFailure Condition.Forward counter_file no_pairs 0 0 1 }
{}

pub fn counter_without_the_downs_fails_first_at_them()
    ensures { IsFirstFailure Condition.Forward counter_file ups_alone 1 1 1 }
{}

pub fn one_way_type_fails_at_once()
    ensures { IsFirstFailure Condition.Forward one_way_file no_pairs_of_three 0 0 0 }
{}

pub fn idle_type_stays_at_its_initial_state()
    ensures { NeverLeaves idle idle_file.reach }
{}

pub fn idle_type_leaves_two_states()
    ensures stays { leaves_at idle (true ∷ true ∷ false ∷ []) 0 0 ≡ false }
    ensures first { IsFirstLeave idle (true ∷ true ∷ false ∷ []) 1 0 }
{}

pub fn counter_passes_with_both_pairs()
    ensures { PassesEverywhere Condition.Forward counter_file forward_pairs }
{}

pub fn counter_with_both_pairs_is_covered()
    ensures { Covers TableKind.Intentions counter_table (has counter_file.reach) (conflicts forward_pairs) }
{
    yes_covers();
}
