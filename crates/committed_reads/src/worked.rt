//! Worked examples: each function does nothing, and its contract is the example.
#![tactic(auto, unfolding(type_table::specs::Table::next))]

ghost use Rattle.std.specs.Prelude.{◌≡◌, ◌∷◌, ◌++◌, [], false, true};
ghost use Rattle.serial_order.specs.Machine.{IsRun, MayFollow};
ghost use Rattle.serial_order.specs.Serial.{serial_at};
ghost use Rattle.serial_order.specs.Examples.{entry, events, undo_account};
ghost use Rattle.committed_states.specs.Committed.{IsCommitted};
ghost use Rattle.committed_reads.specs.Still.{is_still};
ghost use Rattle.committed_reads.specs.Readers.{with_reader};
ghost use Rattle.committed_reads.specs.Laws.{IsSerialHistory};
ghost use Rattle.committed_reads.specs.Examples.{one_way_in_place, paid, paying, read_between};

use object_trait::EventKind;

/// Of the one-way type p and q lead to other states, and r, which leads from 4 to 4, changes nothing.
pub fn what_leads_nowhere_else_is_still()
    ensures p { is_still one_way_in_place 0 ≡ false }
    ensures q { is_still one_way_in_place 1 ≡ false }
    ensures r { is_still one_way_in_place 2 ≡ true }
{}

/// A reader reads a balance of 0, though the state in place is 1, as another transaction has paid in. So it
/// is in commit order. The locks wouldn't let it in: in place its read isn't legal.
pub fn a_reader_sees_what_is_committed()
    ensures runs { IsRun (undo_account ∷ []) paying }
    ensures committed { IsCommitted undo_account 0 0 paying }
    ensures with_it { with_reader 0 paying (entry 1 0 1 ∷ []) paid ≡ read_between }
    ensures order { serial_at 0 read_between ≡ entry 1 0 1 ∷ entry 0 0 0 ∷ [] }
    ensures serial { IsSerialHistory (undo_account ∷ []) read_between }
    ensures no_run { MayFollow (undo_account ∷ []) (paying ++ events (EventKind.Begin 1 ∷ [])) (record { worker = 0; kind = EventKind.Op 1 1 0 }) → ⊥ }
{}
