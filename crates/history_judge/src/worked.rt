//! Worked examples: each function does nothing, and its contract is what comes of some events.
#![tactic(auto, unfolding(type_table::specs::Table::next))]

ghost use Rattle.std.specs.Prelude.{◌≡◌, [], ◌∷◌, ◌++◌, Some, None, Ok, Err};
ghost use Rattle.object_trait.specs.declared.event.EventKind.TheVariants as kind;
ghost use Rattle.serial_order.specs.History.{summary};
ghost use Rattle.history_judge.specs.declared.event_fault.EventFault.TheVariants as fault;
ghost use Rattle.history_judge.specs.Rows.{operations_of, committed_in, IsRowOf, AreRowsOf};
ghost use Rattle.history_judge.specs.Moves.{RowsMove};
ghost use Rattle.history_judge.specs.Judges.{Judges};
ghost use Rattle.history_judge.specs.Replay.{ops_at, states_after, stop_after};
ghost use Rattle.history_judge.specs.SerialRun.{illegal_at};
ghost use Rattle.history_judge.specs.Examples.{two_counters, two_stops, down_at, up_at, stop_at, operation, two_ups_events, two_ups_rows, one_up_rows};

use crate::laws::{moved_rows_agree, nothing_began};

/// Two operations aren't legal, at object 1 and then at object 0. How they are replayed, operation by operation.
pub fn operations_are_replayed()
    ensures at_first { ops_at 0 two_stops ≡ 0 ∷ 1 ∷ 1 ∷ [] }
    ensures moved { states_after two_counters (0 ∷ 0 ∷ []) (Some (stop_at 1 0)) (up_at 0) ≡ 1 ∷ 0 ∷ [] }
    ensures stays { states_after two_counters (0 ∷ 0 ∷ []) None (down_at 1) ≡ 0 ∷ 0 ∷ [] }
    ensures stopped { stop_after two_counters (0 ∷ 0 ∷ []) None 0 (down_at 1) ≡ Some (stop_at 1 0) }
    ensures lower { stop_after two_counters (0 ∷ 0 ∷ []) (Some (stop_at 1 0)) 3 (down_at 0) ≡ Some (stop_at 0 3) }
    ensures passed { states_after two_counters (0 ∷ 0 ∷ []) (Some (stop_at 0 3)) (up_at 1) ≡ 0 ∷ 0 ∷ [] }
    ensures place { illegal_at 7 two_stops (Some (stop_at 0 3)) ≡ Some (record { commit_index = 7; object = 0; op_index = 2 }) }
{}

/// A row has the operations of its transaction that survive, over all objects, as they were executed.
pub fn operations_are_told()
    ensures some { operations_of 0 (summary two_ups_events) ≡ operation 1 0 ∷ operation 0 0 ∷ [] }
    ensures none { operations_of 1 (summary two_ups_events) ≡ [] }
    ensures committed { committed_in (kind.Commit 0) (summary two_ups_events) ≡ Some (operation 1 0 ∷ operation 0 0 ∷ []) }
    ensures aborted { committed_in (kind.Abort 0) (summary two_ups_events) ≡ None }
{}

/// A row is none where its transaction ended, and no other.
pub fn a_row_says_what_its_transaction_did()
    ensures open { IsRowOf (Some (operation 1 0 ∷ operation 0 0 ∷ [])) 0 (summary two_ups_events) }
    ensures ended { IsRowOf None 1 (summary two_ups_events) }
    ensures lost { IsRowOf None 0 (summary two_ups_events) → ⊥ }
    ensures struck { IsRowOf (Some (operation 1 0 ∷ [])) 0 (summary two_ups_events) → ⊥ }
    ensures kept { IsRowOf (Some []) 1 (summary two_ups_events) → ⊥ }
{}

/// What events do to the rows: here a transaction takes an operation back, and ends.
pub fn rows_move()
    ensures begins { RowsMove (kind.Begin 2) two_ups_rows (two_ups_rows ++ Some [] ∷ []) }
    ensures rolled_back { RowsMove (kind.Rollback 0 1) two_ups_rows one_up_rows }
    ensures ended { RowsMove (kind.Abort 0) one_up_rows (None ∷ None ∷ []) }
    ensures closed { RowsMove (kind.Commit 1) two_ups_rows two_ups_rows → ⊥ }
{}

/// The first transaction may commit two operations or take them back, and the third may begin. It may not be
/// the fourth, the second ended, and there are no three operations to take back.
pub fn events_are_judged()
    ensures agrees { AreRowsOf two_ups_rows (summary two_ups_events) }
    ensures commits { Judges two_counters two_ups_rows (kind.Commit 0) (Ok (Some (operation 1 0 ∷ operation 0 0 ∷ []))) (None ∷ None ∷ []) }
    ensures takes_back { Judges two_counters two_ups_rows (kind.Rollback 0 1) (Ok None) one_up_rows }
    ensures begins { Judges two_counters two_ups_rows (kind.Begin 2) (Ok None) (two_ups_rows ++ Some [] ∷ []) }
    ensures misnumbered { Judges two_counters two_ups_rows (kind.Begin 3) (Err fault.Bad) two_ups_rows }
    ensures ended { Judges two_counters two_ups_rows (kind.Op 0 1 0) (Err fault.Bad) two_ups_rows }
    ensures overdone { Judges two_counters two_ups_rows (kind.Rollback 0 3) (Err fault.Bad) two_ups_rows }
    ensures no_memory { Judges two_counters two_ups_rows (kind.Commit 0) (Err fault.NoMemory) two_ups_rows → ⊥ }
    ensures not_handed_out { Judges two_counters two_ups_rows (kind.Commit 0) (Ok None) (None ∷ None ∷ []) → ⊥ }
    ensures still_open { Judges two_counters two_ups_rows (kind.Abort 0) (Ok None) two_ups_rows → ⊥ }
    ensures refused { Judges two_counters two_ups_rows (kind.Commit 0) (Err fault.Bad) two_ups_rows → ⊥ }
{
    nothing_began();
    moved_rows_agree();
}
