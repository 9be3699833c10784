//! Worked audits of a number whose calls take any amount: each function does nothing, and its contract is what comes
//! out of a small history.
#![tactic(auto)]

ghost use Rattle.std.specs.Prelude.{[], ◌∷◌, Some};
ghost use Rattle.type_table.specs.Examples.{counter_table};
ghost use Rattle.type_table.specs.Operation.{operation_at};
ghost use Rattle.object_trait.specs.declared.event.EventKind.TheVariants as kind;
ghost use Rattle.serial_order.specs.History.{commits, IsHistory};
ghost use Rattle.history_judge.specs.Audit.{IsAudit, IsFirstBad, IsFirstIllegal};
ghost use Rattle.history_judge.specs.Examples.{one_purse, purse_history, early_history, amount_history, IsBadFirst, give_any, take_any, purse_value};

use number_types::number_has_table;

/// Two give to the purse, one of whom takes of it too; then a third reads 6 and takes 3, which is listed.
pub fn amounts_are_replayed()
    ensures history { IsHistory one_purse purse_history }
    ensures audit { IsAudit one_purse purse_history (1 ∷ 0 ∷ 2 ∷ []) (3 ∷ []) }
{
    number_has_table();
}

/// One takes 4 of what another gave, and commits first: in commit order there is nothing yet.
pub fn taken_before_it_is_given()
    ensures history { IsHistory one_purse early_history }
    ensures first { IsFirstIllegal one_purse early_history (commits early_history) 0 0 0 }
{
    number_has_table();
}

/// No operation is one of `take any` or of `value` that comes without an amount, or one that is listed and comes with one;
/// nor is one whose amount is out of its range, 1 to 9, or 0 to 9 for `value`. No operation of a table has an amount.
pub fn operations_that_are_bad()
    ensures without { IsBadFirst (kind.Op 2 0 0) }
    ensures value_without { IsBadFirst (kind.Op 6 0 0) }
    ensures listed_with { IsBadFirst (kind.Op (operation_at 0 (Some 3)) 0 0) }
    ensures nothing { IsBadFirst (kind.Op (take_any 0) 0 0) }
    ensures too_much { IsBadFirst (kind.Op (take_any 10) 0 0) }
    ensures too_much_given { IsBadFirst (kind.Op (give_any 10) 0 0) }
    ensures value_past { IsBadFirst (kind.Op (purse_value 10) 0 0) }
    ensures second_of_value { IsBadFirst (kind.Op (operation_at 7 (Some 1)) 0 0) }
    ensures at_a_table { IsFirstBad (counter_table ∷ []) amount_history 1 }
{}

/// An answer without a reply says a place that some operation has. `value` has one place.
pub fn places_that_are_bad()
    ensures second_of_value { IsBadFirst (kind.Busy 7 0 0 1) }
    ensures past { IsBadFirst (kind.None 0 0 8) }
{}
