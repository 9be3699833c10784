//! Worked examples: each function does nothing, and its contract is the example.
#![tactic(auto, unfolding(type_table::specs::Table::next, escrow_laws::specs::Bounds::steps_of))]

ghost use Rattle.std.specs.Prelude.{◌≡◌, [], ◌∷◌, ◌++◌, Some, None};
ghost use Rattle.escrow_laws.specs.Firm.{with_op};
ghost use Rattle.escrow_laws.specs.Safe.{IsSafe};
ghost use Rattle.object_trait.specs.Object.{IsCovered};
ghost use Rattle.serial_order.specs.Machine.{MayFollow};
ghost use Rattle.serial_order.specs.Serial.{serial_state};
ghost use Rattle.serial_order.specs.Examples.{number_object, short_history};
ghost use Rattle.escrow_exact.specs.Ends.{open_own, AreEndings};
ghost use Rattle.escrow_exact.specs.Stores.{IsSerialAt, RefusesNoEnd};
ghost use Rattle.escrow_exact.specs.Laws.{BreaksByEnds};
ghost use Rattle.escrow_exact.specs.Examples.{all_admitted, back_and_commits, give, taken_history, two_commits};

use crate::laws::escrow_admits_the_safe;
use escrow_laws::{bounds_are_numeric, numbers_have_tables};

/// A number up to 10 is 5. Transaction 0 takes 5, and for 1 it is safe to give 5, and admitted.
pub fn to_give_is_safe()
    ensures covered { IsCovered number_object }
    ensures committed { serial_state number_object 0 taken_history ≡ Some 5 }
    ensures own { open_own 0 taken_history 0 ≡ 0 ∷ [] }
    ensures other { open_own 0 taken_history 1 ≡ [] }
    ensures more { with_op (open_own 0 taken_history) 1 2 1 ≡ 2 ∷ [] }
    ensures admitted { MayFollow (number_object ∷ []) taken_history give }
    ensures safe { IsSafe number_object.table 5 (with_op (open_own 0 taken_history) 1 2) }
{
    numbers_have_tables();
    bounds_are_numeric();
    escrow_admits_the_safe();
}

/// Once 0 has found that there isn't enough to take 5 more, it isn't: where 1 gives 5 and both commit, 1
/// first, there was enough. Where 0 takes that back before, nothing is illegal.
pub fn after_a_short_reply_it_is_not()
    ensures not_safe { IsSafe number_object.table 5 (with_op (open_own 0 short_history) 1 2) → ⊥ }
    ensures refused { MayFollow (number_object ∷ []) short_history give → ⊥ }
    ensures ends { AreEndings (short_history ++ give ∷ []) two_commits }
    ensures illegal { serial_state number_object 0 ((short_history ++ give ∷ []) ++ two_commits) ≡ None }
    ensures breaks { BreaksByEnds number_object.table 0 (short_history ++ give ∷ []) }
    ensures taken_back { AreEndings (short_history ++ give ∷ []) back_and_commits }
    ensures legal { serial_state number_object 0 ((short_history ++ give ∷ []) ++ back_and_commits) ≡ Some 5 }
{}

/// A store that admits everything refuses no end, and isn't serial in commit order.
pub fn to_admit_everything_breaks()
    ensures no_end { RefusesNoEnd all_admitted }
    ensures not_serial { IsSerialAt all_admitted number_object.table 0 → ⊥ }
{}
