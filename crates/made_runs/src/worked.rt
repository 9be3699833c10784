//! Worked examples: each function does nothing, and its contract is the example.
#![tactic(auto, unfolding(type_table::specs::Table::next))]

ghost use Rattle.std.specs.Prelude.{◌≡◌, ◌↔◌, [], ◌∷◌, false};
ghost use Rattle.type_table.specs.Examples.{counter_table};
ghost use Rattle.table_checker.specs.Checked.{IsChecked};
ghost use Rattle.object_trait.specs.Object.{IsCovered, object_of};
ghost use Rattle.serial_order.specs.Replay.{replay};
ghost use Rattle.serial_order.specs.Serial.{IsSerial};
ghost use Rattle.serial_order.specs.Examples.{semiqueue_of_two, small_account, undo_counter};
ghost use Rattle.dynamic_atomicity.specs.Converse.{breaking, IsReached, StepsHaveOps};
ghost use Rattle.dynamic_atomicity.specs.OrderExamples.{loose_account, loose_counter, paired_counter};
ghost use Rattle.store_limits.specs.Standard.{standard_with};
ghost use Rattle.made_runs.specs.Made.{HasOneReply, HasRoomForRun, IsMadeByCommands, IsToldBy};
ghost use Rattle.made_runs.specs.Laws.{StoreAdmitsLegalOnly};
ghost use Rattle.made_runs.specs.Examples.{balance_and_deposit};

use crate::laws::{store_undo_is_exact, store_yes_is_exact};
use object_trait::EventKind;
use type_table::steps_within;

/// An account, at each of whose states one balance is legal. Where its table lacks a pair, the run that breaks is
/// one that commands make.
pub fn commands_break_a_loose_account()
    ensures one_reply { HasOneReply small_account }
    ensures replayed { replay (undo_counter ∷ loose_account ∷ []) (standard_with 30) (λ _. false) [] balance_and_deposit ≡ breaking 1 2 1 [] 0 1 [] }
    ensures made { IsMadeByCommands (undo_counter ∷ loose_account ∷ []) (standard_with 30) (breaking 1 2 1 [] 0 1 []) }
    ensures room { HasRoomForRun (standard_with 30) (breaking 1 2 1 [] 0 1 []) }
    ensures illegal { IsSerial (undo_counter ∷ loose_account ∷ []) (breaking 1 2 1 [] 0 1 []) → ⊥ }
{
    steps_within();
}

/// So its table isn't enough, by the law of the histories that a store makes.
pub fn a_loose_account_is_not_covered()
    ensures named { StepsHaveOps small_account }
    ensures reached { IsReached loose_account }
    ensures not_enough { IsCovered loose_account → ⊥ }
{
    steps_within();
    store_undo_is_exact();
}

/// The checker says yes of the counter under deferred update, so a store makes legal orders only. Without its pairs
/// it has no yes, and a store doesn't.
pub fn a_yes_is_exact_at_a_store()
    ensures one_reply { HasOneReply counter_table }
    ensures exact { IsChecked paired_counter ↔ StoreAdmitsLegalOnly (object_of paired_counter ∷ []) 0 (object_of paired_counter) }
    ensures legal { StoreAdmitsLegalOnly (object_of paired_counter ∷ []) 0 (object_of paired_counter) }
    ensures not_legal { StoreAdmitsLegalOnly (object_of loose_counter ∷ []) 0 (object_of loose_counter) → ⊥ }
{
    steps_within();
    store_yes_is_exact();
}

/// A semiqueue of two items may reply with either. An answer `None` is told by nobody.
pub fn some_replies_are_not_told()
    ensures either { HasOneReply semiqueue_of_two → ⊥ }
    ensures no_reply { IsToldBy (undo_counter ∷ []) (EventKind.None 0 0 1) → ⊥ }
    ensures always { IsToldBy (undo_counter ∷ []) (EventKind.Begin 0) }
{}
