//! Worked examples of the definitions: each function does nothing, and its contract is the example.
#![tactic(auto, unfolding(type_table::specs::Table::next))]

ghost use Rattle.std.specs.Prelude.{◌≡◌, true, false, [], ◌∷◌, Some, None, take};
ghost use Rattle.type_table.specs.Run.{run};
ghost use Rattle.type_table.specs.Examples.{counter_table};
ghost use Rattle.escrow_laws.specs.Amounts.{Amounts, IsNumeric, fall, rise};
ghost use Rattle.escrow_laws.specs.Fronts.{IsLowest, IsHighest};
ghost use Rattle.escrow_laws.specs.Bounds.{moved, amounts_of, AreBounds, bounds_of};
ghost use Rattle.escrow_laws.specs.Faults.{IsFirstNumericFault};
ghost use Rattle.escrow_laws.specs.Firm.{others_fall, IsFirm, with_op, keeps};
ghost use Rattle.escrow_laws.specs.Safe.{done_in_parts, IsSafe};
ghost use Rattle.escrow_laws.specs.Escrow.{escrow_begun, left_by};
ghost use Rattle.escrow_laws.specs.Marks.{unmarked, mark_after, mark_of, AreMarks, fallen_of, risen_of, mark_keeps, are_firm};
ghost use Rattle.escrow_laws.specs.Examples.{giving, taking, five_table, five_ops, two_did, one_course, two_marks, stock_table, stock_ops, one_taken, nine_given, account_of_two, account_ops, one_element, one_element_ops, two_elements, set_of_one, rarely, rarely_ops};

use crate::laws::{
    bounds_are_numeric, fall_is_lowest, firm_after_apply, firm_is_safe, nothing_keeps,
    numbers_have_tables, numeric_is_faultless, rise_is_highest,
};

pub fn operations_have_bounds()
    ensures below { moved (taking 2 5 2) 1 ≡ None }
    ensures least { moved (taking 2 5 2) 2 ≡ Some 0 }
    ensures most { moved (giving 0 4 1) 4 ≡ Some 5 }
    ensures above { moved (giving 0 4 1) 5 ≡ None }
{}

/// A table's operations are legal from the least to the greatest state in which they are.
pub fn bounds_are_those_of_the_table()
    ensures of_five { bounds_of five_table ≡ five_ops }
    ensures of_account { bounds_of account_of_two ≡ account_ops }
    ensures of_rarely { bounds_of rarely ≡ rarely_ops }
{}

/// The counter from 0 to 5, a stock of 0 to 1,000, the counter of `type_table`, an account, a semiqueue
/// of one element, and a type with an operation that is legal nowhere.
pub fn these_are_numeric()
    ensures of_five { AreBounds five_table 5 five_ops }
    ensures of_stock { AreBounds stock_table 1000 stock_ops }
    ensures of_counter { AreBounds counter_table 2 one_element_ops }
    ensures of_account { AreBounds account_of_two 2 account_ops }
    ensures of_one_element { AreBounds one_element 2 one_element_ops }
    ensures of_rarely { AreBounds rarely 1 rarely_ops }
{
    numbers_have_tables();
}

/// One more of a is illegal where two of b are held, and legal with fewer and with more, by the order
/// of the states. An insert moves the state without a to that with it, and leaves that as it is.
pub fn these_are_not()
    ensures of_two_elements { IsFirstNumericFault two_elements 0 2 }
    ensures of_set { IsFirstNumericFault set_of_one 0 1 }
    ensures never { (a : Amounts) → IsNumeric set_of_one a → ⊥ }
{
    numeric_is_faultless();
}

/// Who takes 2 and then gives 1 falls by 2, and who gives 1 first by 1.
pub fn falls_and_rises()
    ensures taken_first { fall (amounts_of five_ops) (1 ∷ 0 ∷ []) ≡ 2 }
    ensures not_above { rise (amounts_of five_ops) (1 ∷ 0 ∷ []) ≡ 0 }
    ensures given_first { fall (amounts_of five_ops) (0 ∷ 1 ∷ []) ≡ 1 }
    ensures above { rise (amounts_of five_ops) (0 ∷ 1 ∷ []) ≡ 1 }
    ensures lowest { IsLowest five_table 3 (0 ∷ 1 ∷ []) 1 }
    ensures highest { IsHighest five_table 3 (0 ∷ 1 ∷ []) 1 }
{
    these_are_numeric();
    bounds_are_numeric();
    fall_is_lowest();
    rise_is_highest();
}

/// Where each of two took 2: at 4 both may commit, at 3 the other one would be short of 1.
pub fn two_takes()
    ensures others { others_fall (amounts_of five_ops) (two_did (1 ∷ []) (1 ∷ [])) 2 1 ≡ 2 }
    ensures at_four { IsFirm five_table (amounts_of five_ops) 4 (two_did (1 ∷ []) (1 ∷ [])) }
    ensures safe { IsSafe five_table 4 (two_did (1 ∷ []) (1 ∷ [])) }
    ensures at_three { IsFirm five_table (amounts_of five_ops) 3 (two_did (1 ∷ []) (1 ∷ [])) → ⊥ }
    ensures free { keeps five_table (amounts_of five_ops) 4 (two_did (1 ∷ []) (1 ∷ [])) 2 1 0 ≡ false }
    ensures kept { keeps five_table (amounts_of five_ops) 3 (two_did (1 ∷ []) (1 ∷ [])) 2 1 0 ≡ true }
{
    these_are_numeric();
    bounds_are_numeric();
    firm_after_apply();
    firm_is_safe();
    nothing_keeps();
}

/// A reply that there isn't enough keeps another from giving only where that could make it untrue: at 1,
/// and not at 0.
pub fn short_is_held()
    ensures untrue { keeps five_table (amounts_of five_ops) 1 (two_did (2 ∷ []) (0 ∷ [])) 2 1 0 ≡ true }
    ensures harmless { keeps five_table (amounts_of five_ops) 0 (two_did (2 ∷ []) (0 ∷ [])) 2 1 0 ≡ false }
    ensures idle { keeps five_table (amounts_of five_ops) 0 (two_did [] (1 ∷ [])) 2 1 0 ≡ false }
    ensures one_more { with_op (two_did (2 ∷ []) []) 0 1 0 ≡ 2 ∷ 1 ∷ [] }
{}

/// Transaction 1 commits the first of its two operations, and then 0 all of its two.
pub fn parts_are_done()
    ensures { done_in_parts (two_did (1 ∷ 0 ∷ []) (0 ∷ 2 ∷ [])) ((record { by = 1; count = 1 }) ∷ (record { by = 0; count = 2 }) ∷ []) ≡ 0 ∷ 1 ∷ 0 ∷ [] }
{}

/// From 3: 1 gave 1 before 0 took 2 and gave 1, in commit order.
pub fn a_course_of_two()
    ensures before { (left_by five_table (escrow_begun 3) (take 5 one_course)).own 0 ≡ 1 ∷ 0 ∷ 1 ∷ [] }
    ensures committed { (left_by five_table (escrow_begun 3) (take 5 one_course)).base ≡ 4 }
    ensures ends { (left_by five_table (escrow_begun 3) one_course).base ≡ 3 }
    ensures in_order { (left_by five_table (escrow_begun 3) one_course).serial ≡ 0 ∷ 1 ∷ 0 ∷ [] }
    ensures leads { run five_table (Some 3) (0 ∷ 1 ∷ 0 ∷ []) ≡ Some 3 }
{}

/// What is kept of who takes 2 and gives 1: legal from 2 to 5; and of who gives 1 first: from 1 to 4.
pub fn marks_of_two()
    ensures taken_first { mark_of 5 five_ops (1 ∷ 0 ∷ []) ≡ (record { fall = 2; rise = 0; above = 1; floor = 2; ceiling = 6 }) }
    ensures given_first { mark_of 5 five_ops (0 ∷ 1 ∷ []) ≡ (record { fall = 1; rise = 1; above = 0; floor = 1; ceiling = 5 }) }
    ensures nothing { mark_of 5 five_ops [] ≡ unmarked 5 }
    ensures taken { mark_after (unmarked 5) (taking 2 5 2) ≡ (record { fall = 2; rise = 0; above = 0; floor = 2; ceiling = 6 }) }
{}

pub fn two_are_marked()
    ensures known { AreMarks 5 five_ops (two_did (1 ∷ []) (1 ∷ [])) 2 two_marks }
    ensures all_fall { fallen_of two_marks ≡ 4 }
    ensures none_rises { risen_of two_marks ≡ 0 }
    ensures at_four { are_firm 4 two_marks ≡ true }
    ensures at_three { are_firm 3 two_marks ≡ false }
{}

/// A stock of 0 to 1,000: at 500 who takes 1 and who gives 9 block nobody. At 1 a second one may
/// not take 1, and at 990 a second one may not give 9.
pub fn a_stock_of_a_thousand()
    ensures of_taker { one_taken ≡ (record { fall = 1; rise = 0; above = 0; floor = 1; ceiling = 1001 }) }
    ensures of_giver { nine_given ≡ (record { fall = 0; rise = 9; above = 9; floor = 0; ceiling = 992 }) }
    ensures for_giver { mark_keeps 500 1 9 nine_given one_taken ≡ false }
    ensures for_taker { mark_keeps 500 1 9 one_taken nine_given ≡ false }
    ensures empty { mark_keeps 1 2 0 one_taken one_taken ≡ true }
    ensures full { mark_keeps 990 0 18 nine_given nine_given ≡ true }
{}
