//! Worked examples of the definitions: each function does nothing, and its contract is the example.
#![tactic(auto, unfolding(crate::specs::Table::next, crate::specs::Table::table_fault))]

ghost use Rattle.std.specs.Prelude.{◌≡◌, false, true, [], ◌∷◌, Some, None, codes};
ghost use Rattle.type_table.specs.Operation.{operation_at, place_of, amount_of};
ghost use Rattle.type_table.specs.Table.{AreSteps, next, table_at, table_fault, has_op, first_op, is_same_call};
ghost use Rattle.type_table.specs.Run.{run, Looks};
ghost use Rattle.type_table.specs.StateSet.{IsClosed};
ghost use Rattle.type_table.specs.ConflictTable.{conflicts};
ghost use Rattle.type_table.specs.Commute.{CommuteForward, CommutesBackward, CommutesBackwardBothWays, Covers};
ghost use Rattle.type_table.specs.Examples.{ok_op, counter_table, three_states, forward_pairs, backward_pairs, idle, only_initial, one_way, five_states};

use crate::table_error::TableError;
use crate::table_kind::TableKind;

pub fn counter_steps()
    ensures up { next counter_table 0 0 ≡ Some 1 }
    ensures down { next counter_table 1 1 ≡ Some 0 }
    ensures full { next counter_table 2 0 ≡ None }
    ensures empty { next counter_table 0 1 ≡ None }
    ensures outside { next counter_table 3 0 ≡ None }
    ensures other { next counter_table 0 2 ≡ None }
{}

pub fn counter_entries()
    ensures its_own { AreSteps counter_table counter_table.steps }
    ensures none { AreSteps counter_table [] → ⊥ }
{}

pub fn counter_runs()
    ensures legal { run counter_table (Some 0) (0 ∷ 0 ∷ 1 ∷ []) ≡ Some 1 }
    ensures illegal { run counter_table (Some 0) (0 ∷ 1 ∷ 1 ∷ 0 ∷ []) ≡ None }
    ensures empty { run counter_table (Some 2) [] ≡ Some 2 }
{}

/// The counter that begins full.
pub fn counter_at_two()
    ensures initial { (table_at counter_table 2).initial ≡ 2 }
    ensures alike { run (table_at counter_table 2) (Some 2) (1 ∷ 0 ∷ []) ≡ run counter_table (Some 2) (1 ∷ 0 ∷ []) }
{}

pub fn counter_calls()
    ensures first { first_op counter_table (codes "dec:1") ≡ Some 1 }
    ensures absent { first_op counter_table (codes "ok") ≡ None }
    ensures unnamed { first_op counter_table [] ≡ None }
    ensures there { has_op counter_table 1 ≡ true }
    ensures past { has_op counter_table 64 ≡ false }
    ensures same { is_same_call counter_table 1 1 ≡ true }
    ensures other { is_same_call counter_table 0 1 ≡ false }
{}

pub fn faults_of_tables()
    ensures none { table_fault counter_table ≡ None }
    ensures no_states { table_fault (record counter_table { states = 0 }) ≡ Some TableError.BadCount }
    ensures no_steps { table_fault (record counter_table { steps = [] }) ≡ Some TableError.BadCount }
    ensures initial { table_fault (record counter_table { initial = 3 }) ≡ Some TableError.BadInitial }
    ensures step { table_fault (record counter_table { steps = Some 3 ∷ None ∷ None ∷ None ∷ None ∷ None ∷ [] }) ≡ Some TableError.BadStep }
    ensures first { table_fault (record counter_table { states = 2; initial = 2; steps = Some 1 ∷ None ∷ None ∷ Some 2 ∷ [] }) ≡ Some TableError.BadInitial }
    ensures twice { table_fault (record counter_table { ops = ok_op (codes "p") ∷ ok_op (codes "p") ∷ [] }) ≡ Some TableError.TwiceOp }
{}

pub fn up_and_down_commute_forward()
    ensures { CommuteForward counter_table three_states 0 1 }
{}

pub fn ups_do_not_commute_forward()
    ensures { CommuteForward counter_table three_states 0 0 → ⊥ }
{}

pub fn ups_commute_backward()
    ensures { CommutesBackward counter_table three_states 0 0 }
{}

pub fn up_does_not_commute_backward_with_down()
    ensures { CommutesBackward counter_table three_states 0 1 → ⊥ }
{}

pub fn counter_is_covered()
    ensures forward { Covers TableKind.Intentions counter_table three_states (conflicts forward_pairs) }
    ensures needed { Covers TableKind.Intentions counter_table three_states (λ _ _. false) → ⊥ }
    ensures backward { Covers TableKind.Undo counter_table three_states (conflicts backward_pairs) }
{}

pub fn idle_operations_commute_in_the_closed_set()
    ensures closed { IsClosed idle only_initial }
    ensures inside { CommuteForward idle only_initial 0 1 }
    ensures everywhere { CommuteForward idle three_states 0 1 → ⊥ }
{}

pub fn one_way_looks_one_way()
    ensures looks { Looks one_way (Some 3) (Some 4) }
    ensures back { Looks one_way (Some 4) (Some 3) → ⊥ }
{}

pub fn one_way_commutes_one_way()
    ensures one { CommutesBackward one_way five_states 0 1 }
    ensures both { CommutesBackwardBothWays one_way five_states 0 1 → ⊥ }
{}

/// Operations without an amount have their places for numbers; with one each place has as many as there are amounts.
pub fn operations_have_numbers()
    ensures listed { operation_at 3 None ≡ 3 }
    ensures least { operation_at 3 (Some 0) ≡ 259 }
    ensures next { operation_at 3 (Some 1) ≡ 515 }
    ensures place { place_of 515 ≡ 3 }
    ensures amount { amount_of 515 ≡ Some 1 }
    ensures none { amount_of 3 ≡ None }
{}
