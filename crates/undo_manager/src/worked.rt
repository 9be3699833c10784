//! Worked examples of the definitions: each function does nothing, and its contract is the example.
#![tactic(auto, unfolding(type_table::specs::Table::next))]

ghost use Rattle.std.specs.Prelude.{◌≡◌, [], ◌∷◌};
ghost use Rattle.type_table.specs.Examples.{counter_table};
ghost use Rattle.object_trait.specs.Examples.{held, done_entry};
ghost use Rattle.undo_manager.specs.Log.{LeadsTo, start_of, unsettled};
ghost use Rattle.undo_manager.specs.Opened.{count_of, AreListedOnce};
ghost use Rattle.undo_manager.specs.Rerun.{IsRerun};
ghost use Rattle.undo_manager.specs.Examples.{at, three_kept, three_counts};

pub fn a_log_keeps_the_states_before_its_entries()
    ensures steps { LeadsTo counter_table 0 three_kept 1 }
    ensures end { LeadsTo counter_table 0 three_kept 2 → ⊥ }
    ensures start { start_of three_kept 1 ≡ 0 }
    ensures empty { start_of [] 1 ≡ 1 }
{}

pub fn leading_done_entries_leave()
    ensures front { unsettled (at 0 (done_entry 1 0) ∷ at 1 (held 2 0) ∷ []) ≡ at 1 (held 2 0) ∷ [] }
    ensures behind { unsettled (at 0 (held 1 0) ∷ at 1 (done_entry 2 0) ∷ []) ≡ at 0 (held 1 0) ∷ at 1 (done_entry 2 0) ∷ [] }
{}

pub fn what_a_strike_leaves_is_run_again()
    ensures all { IsRerun counter_table 1 0 three_kept 0 (at 0 (held 2 0) ∷ []) 1 }
    ensures last { IsRerun counter_table 1 2 three_kept 2 (at 0 (held 1 0) ∷ at 1 (held 2 0) ∷ []) 2 }
{}

pub fn each_open_transaction_is_counted()
    ensures listed { AreListedOnce three_counts }
    ensures first { count_of 1 three_counts ≡ 2 }
    ensures second { count_of 2 three_counts ≡ 1 }
    ensures other { count_of 3 three_counts ≡ 0 }
{}
