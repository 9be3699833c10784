//! Worked examples: each function does nothing, and its contract is the example.
#![tactic(auto, unfolding(type_table::specs::Table::next))]

ghost use Rattle.std.specs.Prelude.{◌≡◌, ◌++◌, [], ◌∷◌};
ghost use Rattle.serial_order.specs.History.{begins, summary};
ghost use Rattle.serial_order.specs.Machine.{IsRun};
ghost use Rattle.serial_order.specs.Answer.{event_of_call};
ghost use Rattle.serial_order.specs.Epochs.{serial_over};
ghost use Rattle.serial_order.specs.Examples.{events, half_history, undo_counter, undo_one_way, undo_semiqueue};
ghost use Rattle.committed_states.specs.Committed.{IsCommitted};
ghost use Rattle.carried_runs.specs.Carried.{carried_run};
ghost use Rattle.carried_runs.specs.OldNumbers.{named_events, owner_of};
ghost use Rattle.carried_runs.specs.Examples.{beginning_at, half_epochs, one_taker, q_again, q_is_open, then_r, two_takers};

use object_trait::EventKind;

/// A carried operation needn't be the one that a store would answer with in the next epoch. 2 took the b, since
/// 1 had the a; where 1 isn't carried, a store would now give 2 the a.
pub fn a_carried_reply_may_not_be_the_first()
    ensures before { IsRun (undo_semiqueue ∷ []) two_takers }
    ensures committed { IsCommitted undo_semiqueue 4 0 two_takers }
    ensures carried { carried_run (λ t. 0) (2 ∷ []) two_takers ≡ one_taker }
    ensures runs { IsRun (beginning_at undo_semiqueue 4 ∷ []) one_taker }
    ensures answer { event_of_call (beginning_at undo_semiqueue 4) (summary (events (EventKind.Begin 0 ∷ []))) 0 0 2 ≡ EventKind.Op 2 0 0 }
{}

/// Two transactions count up, one in each epoch by its commit.
pub fn a_carried_transaction_commits_in_the_next_epoch()
    ensures before { IsRun (undo_counter ∷ []) half_history }
    ensures committed { IsCommitted undo_counter 1 0 half_history }
    ensures carried { carried_run (λ t. 0) (1 ∷ []) half_history ≡ events (EventKind.Begin 0 ∷ EventKind.Op 0 0 0 ∷ []) }
    ensures runs { IsRun (beginning_at undo_counter 1 ∷ []) (events (EventKind.Begin 0 ∷ EventKind.Op 0 0 0 ∷ EventKind.Commit 0 ∷ [])) }
    ensures serial { serial_over 0 half_epochs ≡ 0 ∷ 0 ∷ [] }
{}

/// Where a yes is one-way, a renewal may be seen. 0 did q before 1 did p, which led to 3; q after p leads to 4, and r is
/// legal there alone.
pub fn a_one_way_renewal_may_be_seen()
    ensures before { IsRun (undo_one_way ∷ []) q_is_open }
    ensures committed { IsCommitted undo_one_way 2 0 q_is_open }
    ensures carried { carried_run (λ t. 0) (0 ∷ []) q_is_open ≡ q_again }
    ensures allows { IsRun (beginning_at undo_one_way 2 ∷ []) (q_again ++ then_r) }
    ensures by_old_numbers { named_events (owner_of (0 ∷ []) (begins q_is_open)) then_r ≡ then_r }
    ensures refuses { IsRun (undo_one_way ∷ []) (q_is_open ++ then_r) → ⊥ }
{}
