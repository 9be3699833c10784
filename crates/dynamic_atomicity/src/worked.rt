//! Worked orders: each function does nothing, and its contract is what comes out of them.
#![tactic(auto, unfolding(type_table::specs::Table::next))]

ghost use Rattle.std.specs.Prelude.{◌≡◌, ◌↔◌, ℕ, List, true, false, [], ◌∷◌, Some, None};
ghost use Rattle.type_table.specs.Run.{IsLegal, Looks};
ghost use Rattle.type_table.specs.StateSet.{has};
ghost use Rattle.type_table.specs.Examples.{counter_table, one_way};
ghost use Rattle.table_checker.specs.Checked.{IsChecked};
ghost use Rattle.table_checker.specs.Examples.{counter_file};
ghost use Rattle.object_trait.specs.Object.{object_of};
ghost use Rattle.serial_order.specs.Operations.{ops, serial};
ghost use Rattle.serial_order.specs.History.{commits};
ghost use Rattle.serial_order.specs.Machine.{IsRun};
ghost use Rattle.serial_order.specs.Serial.{serial_at, surviving_at, IsSerial};
ghost use Rattle.serial_order.specs.Examples.{entry, undo_one_way, undo_counter, undo_semiqueue, one_way_history, semiqueue_history, lock_history, half_deferred_history, number_object};
ghost use Rattle.dynamic_atomicity.specs.Dynamic.{comes_first, dated, dated_at, end_state, executed_at, KeepsDated, KeepsLiving, KeepsObjectPrecedes};
ghost use Rattle.dynamic_atomicity.specs.Joined.{AreJoined, first_commits, store_history, order_at};
ghost use Rattle.dynamic_atomicity.specs.Converse.{breaking, AdmitsLegalOnly, IsComplete, IsReachable, StepsHaveOps};
ghost use Rattle.dynamic_atomicity.specs.OrderExamples.{deferred_parting, fives_history, loose_account, loose_counter, one_way_other, paired_counter, parting, parting_history, same_names, struck_stores, two_stores, with_date};

use crate::laws::yes_is_exact;

/// Operations that survive have the transactions that had committed before them: one counts down after the
/// other has committed. One of two that count up takes it back.
pub fn operations_have_dates()
    ensures behind { dated half_deferred_history ≡ with_date (entry 1 0 0) [] ∷ with_date (entry 0 0 1) (1 ∷ []) ∷ [] }
    ensures struck { dated lock_history ≡ with_date (entry 1 0 0) [] ∷ with_date (entry 1 0 1) [] ∷ [] }
    ensures elsewhere { dated_at 1 half_deferred_history ≡ [] }
    ensures kept { KeepsDated (1 ∷ 0 ∷ []) (dated half_deferred_history) }
    ensures turned { KeepsDated (0 ∷ 1 ∷ []) (dated half_deferred_history) → ⊥ }
{}

/// Which of two transactions is first in a list.
pub fn some_come_first()
    ensures first { comes_first (2 ∷ 0 ∷ 1 ∷ []) 0 1 ≡ true }
    ensures second { comes_first (2 ∷ 0 ∷ 1 ∷ []) 1 0 ≡ false }
    ensures alone { comes_first (2 ∷ []) 2 1 ≡ true }
    ensures outside { comes_first (2 ∷ []) 0 2 ≡ false }
    ensures itself { comes_first (2 ∷ []) 2 2 ≡ false }
{}

/// With update in place, no order's end need look like that of commit order, nor the other way round.
pub fn ends_of_orders_may_part()
    ensures runs { IsRun (undo_one_way ∷ []) one_way_history }
    ensures other_runs { IsRun (undo_one_way ∷ []) one_way_other }
    ensures commits { commits one_way_history ≡ 1 ∷ 0 ∷ [] }
    ensures other_commits { commits one_way_other ≡ 0 ∷ 1 ∷ [] }
    ensures keeps { KeepsObjectPrecedes 0 one_way_history (0 ∷ 1 ∷ []) }
    ensures other_keeps { KeepsObjectPrecedes 0 one_way_other (1 ∷ 0 ∷ []) }
    ensures executed { ops (executed_at 0 one_way_history) ≡ 1 ∷ 0 ∷ [] }
    ensures end { end_state undo_one_way (serial (1 ∷ 0 ∷ []) (surviving_at 0 one_way_history)) ≡ Some 4 }
    ensures other_end { end_state undo_one_way (serial (0 ∷ 1 ∷ []) (surviving_at 0 one_way_history)) ≡ Some 3 }
    ensures end_2 { end_state undo_one_way (serial (0 ∷ 1 ∷ []) (surviving_at 0 one_way_other)) ≡ Some 3 }
    ensures other_end_2 { end_state undo_one_way (serial (1 ∷ 0 ∷ []) (surviving_at 0 one_way_other)) ≡ Some 4 }
    ensures parts { Looks one_way (Some 4) (Some 3) → ⊥ }
{}

/// Each order of two that take from a semiqueue together gives them the same replies.
pub fn either_takes_first()
    ensures one { end_state undo_semiqueue (serial (0 ∷ 1 ∷ 2 ∷ []) (surviving_at 0 semiqueue_history)) ≡ Some 0 }
    ensures other { end_state undo_semiqueue (serial (0 ∷ 2 ∷ 1 ∷ []) (surviving_at 0 semiqueue_history)) ≡ Some 0 }
    ensures turned { end_state undo_semiqueue (serial (1 ∷ 0 ∷ 2 ∷ []) (surviving_at 0 semiqueue_history)) ≡ None }
    ensures kept { KeepsDated (0 ∷ 1 ∷ 2 ∷ []) (dated_at 0 semiqueue_history) }
    ensures turned_is_not { KeepsDated (1 ∷ 0 ∷ 2 ∷ []) (dated_at 0 semiqueue_history) → ⊥ }
{}

/// With deferred update, commit order may be legal where another order that keeps what precedes isn't.
pub fn commit_order_may_stay_legal()
    ensures runs { IsRun (deferred_parting ∷ []) parting_history }
    ensures serial { IsSerial (deferred_parting ∷ []) parting_history }
    ensures keeps { KeepsObjectPrecedes 0 parting_history (0 ∷ 1 ∷ 2 ∷ []) }
    ensures illegal { IsLegal parting (Some 0) (ops (serial (0 ∷ 1 ∷ 2 ∷ []) (surviving_at 0 parting_history))) → ⊥ }
{}

/// Under escrow each order that keeps what precedes ends at the same number. One that doesn't may be illegal.
#[tactic(auto, unfolding(type_table::specs::Table::next, escrow_laws::specs::Bounds::steps_of))]
pub fn numbers_end_the_same()
    ensures runs { IsRun (number_object ∷ []) fives_history }
    ensures commits { commits fives_history ≡ 1 ∷ 0 ∷ 2 ∷ [] }
    ensures kept { KeepsDated (0 ∷ 1 ∷ 2 ∷ []) (dated_at 0 fives_history) }
    ensures end { end_state number_object (serial (1 ∷ 0 ∷ 2 ∷ []) (surviving_at 0 fives_history)) ≡ Some 0 }
    ensures other_end { end_state number_object (serial (0 ∷ 1 ∷ 2 ∷ []) (surviving_at 0 fives_history)) ≡ Some 0 }
    ensures turned { KeepsDated (0 ∷ 2 ∷ 1 ∷ []) (dated_at 0 fives_history) → ⊥ }
    ensures illegal { end_state number_object (serial (0 ∷ 2 ∷ 1 ∷ []) (surviving_at 0 fives_history)) ≡ None }
{}

/// Two stores whose commit orders disagree have one order that keeps what precedes at both.
pub fn two_stores_have_one_order()
    ensures first_runs { IsRun (undo_counter ∷ []) (store_history 0 two_stores) }
    ensures second_runs { IsRun (undo_counter ∷ []) (store_history 1 two_stores) }
    ensures first_commits { commits (store_history 0 two_stores) ≡ 0 ∷ 1 ∷ [] }
    ensures second_commits { commits (store_history 1 two_stores) ≡ 1 ∷ 0 ∷ [] }
    ensures joined { AreJoined same_names two_stores }
    ensures one_order { first_commits same_names two_stores ≡ 0 ∷ 1 ∷ [] }
    ensures at_second { order_at same_names two_stores 1 (first_commits same_names two_stores) ≡ 0 ∷ 1 ∷ [] }
{}

/// What a rollback struck holds no order. By all operations 0 precedes 1 at the first store, and 1 precedes 0 at
/// the second. By those that survive, 1 before 0 keeps what precedes at both.
pub fn what_was_struck_holds_no_order()
    ensures first_runs { IsRun (undo_counter ∷ []) (store_history 0 struck_stores) }
    ensures second_runs { IsRun (undo_counter ∷ []) (store_history 1 struck_stores) }
    ensures at_first { order_at same_names struck_stores 0 (1 ∷ 0 ∷ []) ≡ 1 ∷ 0 ∷ [] }
    ensures at_second { order_at same_names struck_stores 1 (1 ∷ 0 ∷ []) ≡ 1 ∷ 0 ∷ [] }
    ensures first_kept { KeepsLiving 0 (store_history 0 struck_stores) (1 ∷ 0 ∷ []) }
    ensures second_kept { KeepsLiving 0 (store_history 1 struck_stores) (1 ∷ 0 ∷ []) }
    ensures precedes { KeepsObjectPrecedes 0 (store_history 0 struck_stores) (1 ∷ 0 ∷ []) → ⊥ }
    ensures turned { KeepsLiving 0 (store_history 1 struck_stores) (0 ∷ 1 ∷ []) → ⊥ }
    ensures first_end { end_state undo_counter (serial (1 ∷ 0 ∷ []) (surviving_at 0 (store_history 0 struck_stores))) ≡ Some 1 }
    ensures second_end { end_state undo_counter (serial (1 ∷ 0 ∷ []) (surviving_at 0 (store_history 1 struck_stores))) ≡ Some 0 }
{}

/// The checker says yes of the counter under deferred update, so each order that keeps what precedes is legal. Without
/// its pairs it has no yes, so not each is.
pub fn a_yes_of_the_counter_is_exact()
    ensures named { StepsHaveOps counter_table }
    ensures complete { IsComplete counter_file }
    ensures reached { (s : ℕ) → has counter_file.reach s ≡ true → IsReachable counter_table s }
    ensures exact { IsChecked paired_counter ↔ AdmitsLegalOnly (object_of paired_counter ∷ []) 0 (object_of paired_counter) }
    ensures yes { IsChecked paired_counter }
    ensures legal { AdmitsLegalOnly (object_of paired_counter ∷ []) 0 (object_of paired_counter) }
    ensures exact_without { IsChecked loose_counter ↔ AdmitsLegalOnly (object_of loose_counter ∷ []) 0 (object_of loose_counter) }
    ensures not_legal { AdmitsLegalOnly (object_of loose_counter ∷ []) 0 (object_of loose_counter) → ⊥ }
{
    yes_is_exact();
}

/// An account in whose table it is left out that to pay in conflicts with a balance of 0: the run that breaks, in
/// commit order and at the second of two objects.
pub fn a_pair_left_out_breaks()
    ensures runs { IsRun (undo_counter ∷ loose_account ∷ []) (breaking 1 2 1 [] 0 1 []) }
    ensures commits { commits (breaking 1 2 1 [] 0 1 []) ≡ 0 ∷ 2 ∷ 1 ∷ 3 ∷ [] }
    ensures serial { ops (serial_at 1 (breaking 1 2 1 [] 0 1 [])) ≡ 0 ∷ 1 ∷ [] }
    ensures illegal { IsSerial (undo_counter ∷ loose_account ∷ []) (breaking 1 2 1 [] 0 1 []) → ⊥ }
{}
