//! Worked stores: each function does nothing, and its contract is what comes out of them.
#![tactic(auto, unfolding(type_table::specs::Table::next))]

ghost use Rattle.std.specs.Prelude.{◌≡◌, ℕ, [], ◌∷◌, Some, None, Ok, Err, take, codes};
ghost use Rattle.type_table.specs.Operation.{operation_at};
ghost use Rattle.serial_order.specs.Replay.{replay};
ghost use Rattle.store_laws.specs.Stored.{objects, refusal_of, stored_after, Steps, MayStep};
ghost use Rattle.store_limits.specs.Standard.{standard_with};
ghost use Rattle.store_laws.specs.Kept.{IsKeptRow, IsKept, IsStore};
ghost use Rattle.store_laws.specs.Moves.{KeptRowsMove, Moves};
ghost use Rattle.store_laws.specs.Words.{as_event};
ghost use Rattle.store_laws.specs.Before.{last_places};
ghost use Rattle.store_laws.specs.Asked.{AreAsked, store_left_by, commands_of, memory_refused_in, replayed};
ghost use Rattle.store_laws.specs.Examples.{AreAccepted, by_seven, one_up, new_counters, counters_begun, counted, committed, one_back, stored, by_worker, up_and_again};

use crate::laws::{end_moves, op_moves, rollback_moves, stays_kept};
use object_calls::Answer;
use object_trait::{EventKind, checked_is_covered, fresh_is_sound};
use serial_order::{Command, Refusal, fresh_represents};

/// A new store of two counters agrees with the empty history.
pub fn a_new_store_agrees()
    ensures { AreAccepted → IsKept new_counters [] }
{
    checked_is_covered();
    fresh_is_sound();
    fresh_represents();
}

/// It goes on agreeing by each event: its transaction begins, counts up at the second, and commits.
pub fn it_goes_on_agreeing()
    ensures begun { AreAccepted → IsKept counters_begun (take 1 one_up) }
    ensures counted { AreAccepted → IsKept counted (take 2 one_up) }
    ensures committed { AreAccepted → IsKept committed one_up }
{
    a_new_store_agrees();
    stays_kept();
}

/// What its calls change is what its events do, by the law of each: it counts up, and then takes that
/// back, or commits.
pub fn its_calls_are_its_events()
    ensures counts { AreAccepted → Moves counters_begun counted (take 1 one_up) (record { worker = 7; kind = EventKind.Op 0 0 1 }) }
    ensures takes_back { AreAccepted → Moves counted counters_begun (take 2 one_up) (record { worker = 7; kind = EventKind.Rollback 0 1 }) }
    ensures commits { AreAccepted → Moves counted committed (take 2 one_up) (record { worker = 7; kind = EventKind.Commit 0 }) }
{
    it_goes_on_agreeing();
    op_moves();
    rollback_moves();
    end_moves();
}

/// What is kept after one event doesn't agree with the history before it, or with that after another.
pub fn it_agrees_with_its_own_history_alone()
    ensures early { IsKept counted (take 1 one_up) → ⊥ }
    ensures late { IsKept counted one_up → ⊥ }
    ensures empty { IsKept new_counters (take 1 one_up) → ⊥ }
{}

/// A row says who began its transaction and where its surviving operations are.
pub fn a_row_says_what_its_transaction_did()
    ensures before { IsKeptRow (Some (by_seven (0 ∷ 1 ∷ []))) 1 (take 4 one_back) }
    ensures after { IsKeptRow (Some (by_seven (0 ∷ []))) 1 one_back }
    ensures rolled_back { IsKeptRow (Some (by_seven (0 ∷ 1 ∷ []))) 1 one_back → ⊥ }
    ensures another_worker { IsKeptRow (Some (by_seven [])) 0 one_back → ⊥ }
    ensures going { IsKeptRow None 1 one_back → ⊥ }
    ensures ended { IsKeptRow None 0 one_up }
    ensures unfinished { IsKeptRow (Some (by_seven (1 ∷ []))) 0 one_up → ⊥ }
{}

/// A rollback takes the last places from its transaction's row, and nothing from another's.
pub fn a_rollback_takes_the_last_places()
    ensures one { KeptRowsMove 7 (EventKind.Rollback 1 1) (None ∷ Some (by_seven (0 ∷ 1 ∷ [])) ∷ []) (None ∷ Some (by_seven (0 ∷ [])) ∷ []) }
    ensures both { KeptRowsMove 7 (EventKind.Rollback 1 2) (None ∷ Some (by_seven (0 ∷ 1 ∷ [])) ∷ []) (None ∷ Some (by_seven []) ∷ []) }
    ensures first { KeptRowsMove 7 (EventKind.Rollback 1 1) (None ∷ Some (by_seven (0 ∷ 1 ∷ [])) ∷ []) (None ∷ Some (by_seven (1 ∷ [])) ∷ []) → ⊥ }
    ensures ended { KeptRowsMove 7 (EventKind.Rollback 0 1) (None ∷ []) (None ∷ []) → ⊥ }
{}

/// Room is reserved for the end of each open transaction, in the vector and by the limit.
pub fn room_is_reserved_for_the_ends()
    ensures enough { IsKept counters_begun (take 1 one_up) → IsStore counters_begun (take 1 one_up) 2 (standard_with 2) }
    ensures small { IsStore counters_begun (take 1 one_up) 1 (standard_with 2) → ⊥ }
    ensures limited { IsStore counters_begun (take 1 one_up) 2 (standard_with 1) → ⊥ }
{}

/// What a call does: its event, by its worker, and nothing where it is refused.
pub fn a_call_appends_its_event()
    ensures begins { stored_after (stored []) 7 Command.Begin ≡ stored (take 1 one_up) }
    ensures calls { stored_after (stored (take 1 one_up)) 7 (Command.Call 0 1 (codes "inc:1")) ≡ stored (take 2 one_up) }
    ensures commits { stored_after (stored (take 2 one_up)) 7 (Command.Commit 0) ≡ stored one_up }
    ensures refuses { refusal_of (stored one_up) (Command.Commit 0) ≡ Some Refusal.NotOpen }
    ensures refused { stored_after (stored one_up) 7 (Command.Commit 0) ≡ stored one_up }
{}

/// A call that takes no memory does what it should; one that may take it may also leave all as it was,
/// and say so.
pub fn a_call_may_be_refused_memory()
    ensures steps { Steps {T = ℕ} (stored []) 7 Command.Begin (Ok 0) (stored (take 1 one_up)) }
    ensures refused { MayStep {T = ℕ} (stored []) 7 Command.Begin (Err Refusal.NoMemory) (stored []) }
    ensures takes_none { Steps {T = ℕ} (stored []) 7 Command.Begin (Err Refusal.NoMemory) (stored []) → ⊥ }
    ensures for_a_reason { MayStep {T = ℕ} (stored one_up) 7 (Command.Commit 0) (Err Refusal.NoMemory) (stored one_up) → ⊥ }
{}

/// The event of an answer is its transaction's, at its object, and says its call where nothing was
/// executed: the place of its first operation, without an amount.
pub fn an_answer_is_an_event()
    ensures reply { as_event 3 1 2 (Answer.Reply 4) ≡ EventKind.Op 4 3 1 }
    ensures busy { as_event 3 1 2 (Answer.Busy 5) ≡ EventKind.Busy 2 3 1 5 }
    ensures none { as_event 3 1 2 Answer.None ≡ EventKind.None 3 1 2 }
    ensures busy_for_an_amount { as_event 3 1 (operation_at 2 (Some 17)) (Answer.Busy 5) ≡ EventKind.Busy 2 3 1 5 }
{}

/// A rollback is at the last places, in their order.
pub fn the_last_places()
    ensures one { last_places 1 (0 ∷ 2 ∷ 1 ∷ []) ≡ 1 ∷ [] }
    ensures two { last_places 2 (0 ∷ 2 ∷ 1 ∷ []) ≡ 2 ∷ 1 ∷ [] }
    ensures none { last_places 0 (0 ∷ 2 ∷ 1 ∷ []) ≡ [] }
{}

/// Worker 7 asks a begin, for which memory is refused, and then a begin, a call, a commit, and the
/// commit again: the history is that of the three that were done, which is the replay of all five.
pub fn asked_commands_are_replayed()
    ensures asked { AreAsked (stored []) up_and_again }
    ensures left { store_left_by (stored []) up_and_again ≡ stored one_up }
    ensures history { replay (objects (stored [])) (standard_with 4) (memory_refused_in up_and_again) [] (commands_of up_and_again) ≡ one_up }
    ensures first { replayed (stored []) up_and_again 2 ≡ stored (take 1 one_up) }
    ensures other_reason { AreAsked (stored []) (by_worker Command.Begin (Some Refusal.TooManyOpen) [] ∷ []) → ⊥ }
{}
