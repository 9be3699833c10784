//! Worked examples: each function does nothing, and its contract is the example.
#![tactic(auto, unfolding(type_table::specs::Table::next))]

ghost use Rattle.std.specs.Prelude.{◌≡◌, ◌∷◌, [], Some};
ghost use Rattle.serial_order.specs.History.{commits};
ghost use Rattle.serial_order.specs.Machine.{IsRun};
ghost use Rattle.serial_order.specs.Serial.{serial_state, surviving_at};
ghost use Rattle.serial_order.specs.Examples.{entry, half_history, one_way_history, undo_counter, undo_one_way};
ghost use Rattle.committed_states.specs.Committed.{IsCommitted, of_these};

/// Two transactions count up, and the first commits: what the other did is left out.
pub fn what_is_open_is_left_out()
    ensures runs { IsRun (undo_counter ∷ []) half_history }
    ensures left { of_these (commits half_history) (surviving_at 0 half_history) ≡ entry 0 0 0 ∷ [] }
    ensures committed { IsCommitted undo_counter 1 0 half_history }
    ensures not_two { IsCommitted undo_counter 2 0 half_history → ⊥ }
{}

/// The committed state may be another than the serial one, which then allows more.
pub fn the_committed_state_may_allow_less()
    ensures runs { IsRun (undo_one_way ∷ []) one_way_history }
    ensures committed { IsCommitted undo_one_way 3 0 one_way_history }
    ensures serial { serial_state undo_one_way 0 one_way_history ≡ Some 4 }
{}
