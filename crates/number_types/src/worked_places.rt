//! Worked examples of places, and of which operation answers a call: each function does nothing, and
//! its contract is the example.
#![tactic(auto)]

ghost use Rattle.std.specs.Prelude.{Some};
ghost use Rattle.type_table.specs.Operation.{operation_at};
ghost use Rattle.type_table.specs.Table.{HasPlace};
ghost use Rattle.number_types.specs.Operations.{number_table};
ghost use Rattle.number_types.specs.Called.{IsCalled, IsOneLegal};
ghost use Rattle.number_types.specs.Examples.{purse};

use crate::laws::{number_has_table, numbers_answer};

/// `value` is the fourth call of the purse: it has a place, and each call before it two.
pub fn places_of_the_purse()
    ensures first { HasPlace (number_table purse) 0 }
    ensures second { HasPlace (number_table purse) 5 }
    ensures value { HasPlace (number_table purse) 6 }
    ensures no_second { HasPlace (number_table purse) 7 → ⊥ }
    ensures past { HasPlace (number_table purse) 8 → ⊥ }
{}

/// What stands for `value` where the purse has 4, and what for `take:3`, which is listed beside `take any`.
pub fn calls_of_the_purse()
    ensures value { IsCalled (number_table purse) 4 (operation_at 6 (Some 0)) (operation_at 6 (Some 4)) }
    ensures other_value { IsCalled (number_table purse) 4 (operation_at 6 (Some 0)) (operation_at 6 (Some 0)) → ⊥ }
    ensures listed { IsCalled (number_table purse) 4 0 0 }
    ensures as_any { IsCalled (number_table purse) 4 (operation_at 2 (Some 3)) (operation_at 2 (Some 3)) → ⊥ }
{
    number_has_table();
}

/// What answers `take:3`, `give:9` and `value` where the purse has 4: there is enough, no room, and 4.
pub fn answers_of_the_purse()
    ensures taken { IsOneLegal (number_table purse) (Some 4) 0 0 }
    ensures full { IsOneLegal (number_table purse) (Some 4) (operation_at 4 (Some 9)) (operation_at 5 (Some 9)) }
    ensures value { IsOneLegal (number_table purse) (Some 4) (operation_at 6 (Some 0)) (operation_at 6 (Some 4)) }
    ensures other_reply { IsOneLegal (number_table purse) (Some 4) 0 1 → ⊥ }
    ensures other_value { IsOneLegal (number_table purse) (Some 4) (operation_at 6 (Some 0)) (operation_at 6 (Some 0)) → ⊥ }
{
    number_has_table();
    numbers_answer();
}
