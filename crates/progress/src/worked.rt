//! Worked examples: each function does nothing, and its contract is the example.
#![tactic(auto, unfolding(type_table::specs::Table::next))]

ghost use Rattle.std.specs.Prelude.{◌≡◌, ◌++◌, Some, None, take};
ghost use Rattle.serial_order.specs.History.{summary};
ghost use Rattle.serial_order.specs.Answer.{event_of_call};
ghost use Rattle.serial_order.specs.Examples.{seen_first, undo_counter, lock_history};
ghost use Rattle.progress.specs.Waiting.{OthersHaveEnded, IsAlone, IsAloneAt, IsInTheWay, done_or_none};
ghost use Rattle.progress.specs.Examples.{abort_and_begin};

use object_trait::EventKind;

/// Two transactions count up, and 1 isn't alone: 0 is in its way. Once 0 has taken that back, 1 is alone
/// at the counter, and may count down, though 0 is open.
pub fn a_rollback_leaves_it_alone()
    ensures told { IsInTheWay (seen_first 4 lock_history) 0 1 0 }
    ensures crowded { IsAloneAt (seen_first 4 lock_history) 0 1 → ⊥ }
    ensures alone { IsAloneAt (seen_first 5 lock_history) 0 1 }
    ensures found { done_or_none 1 0 1 (Some 1) ≡ EventKind.Op 1 1 0 }
    ensures not_found { done_or_none 1 0 1 None ≡ EventKind.None 1 0 1 }
    ensures answered { event_of_call undo_counter (seen_first 5 lock_history) 0 1 1 ≡ EventKind.Op 1 1 0 }
{}

/// 0 aborts while 1 waits, and 2 begins. So all others that were open have ended, and 2 holds nothing: 1 is
/// alone at the counter, though it isn't alone.
pub fn an_abort_ends_the_wait()
    ensures ended { OthersHaveEnded (take 4 lock_history) abort_and_begin 0 1 }
    ensures alone_there { IsAloneAt (summary (take 4 lock_history ++ abort_and_begin)) 0 1 }
    ensures not_alone { IsAlone (summary (take 4 lock_history ++ abort_and_begin)) 1 → ⊥ }
    ensures before { IsAlone (summary (take 4 lock_history ++ take 1 abort_and_begin)) 1 }
{}
