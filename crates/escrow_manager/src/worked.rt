//! Worked examples of the definitions: each function does nothing, and its contract is the example.
#![tactic(auto)]

ghost use Rattle.std.specs.Prelude.{◌≡◌, ◌≤◌, ℕ, true, false, [], ◌∷◌};
ghost use Rattle.escrow_laws.specs.Marks.{unmarked, mark_of, mark_keeps};
ghost use Rattle.escrow_laws.specs.Examples.{five_ops};
ghost use Rattle.escrow_manager.specs.Marks.{MarksAscend, mark_index, mark_in, with_mark, without_mark, mark_keeps_alone, moves_far};
ghost use Rattle.escrow_manager.specs.Totals.{need_of, mark_limit, totals_of, totals_with, stand, AreFirm};
ghost use Rattle.escrow_manager.specs.Examples.{mark_by, taker, giver, both_marks, listing_both, asker, took_one, took_nine};
ghost use Rattle.escrow_manager.specs.KeptAmount.{first_kept, first_beyond, last_refused, HasAmount, IsLeastAmount, IsMostAmount};
ghost use Rattle.escrow_manager.specs.declared.way.Way.TheVariants as Way;

/// A transaction has its mark, or that of no operations.
pub fn each_has_its_mark()
    ensures place { mark_index 3 both_marks ≡ 1 }
    ensures between { mark_index 2 both_marks ≡ 1 }
    ensures behind { mark_index 4 both_marks ≡ 2 }
    ensures own { mark_in 5 3 both_marks ≡ mark_of 5 five_ops (0 ∷ 1 ∷ []) }
    ensures other { mark_in 5 2 both_marks ≡ unmarked 5 }
    ensures ordered { MarksAscend both_marks }
{}

/// A mark takes the place of the one before it, and a first one goes before those of later
/// transactions.
pub fn a_transaction_has_one_mark()
    ensures again { with_mark (mark_by 1 (1 ∷ 0 ∷ [])) both_marks ≡ mark_by 1 (1 ∷ 0 ∷ []) ∷ giver ∷ [] }
    ensures first { with_mark (mark_by 2 (0 ∷ [])) both_marks ≡ taker ∷ mark_by 2 (0 ∷ []) ∷ giver ∷ [] }
    ensures last { with_mark (mark_by 4 (0 ∷ [])) both_marks ≡ taker ∷ giver ∷ mark_by 4 (0 ∷ []) ∷ [] }
    ensures gone { without_mark 1 both_marks ≡ giver ∷ [] }
{}

/// They fall by 2 and by 1, and one of them rises by 1. Neither needs anything beside what it falls, and
/// the one that rises stays below 6 with that.
pub fn totals_of_two()
    ensures none { totals_of 5 [] ≡ (record { fallen = 0; risen = 0; needed = 0; limit = 6 }) }
    ensures of_taker { totals_of 5 (taker ∷ []) ≡ (record { fallen = 2; risen = 0; needed = 0; limit = 6 }) }
    ensures of_both { totals_of 5 both_marks ≡ (record { fallen = 3; risen = 1; needed = 0; limit = 6 }) }
    ensures one_more { totals_with (totals_of 5 (taker ∷ [])) (unmarked 5) giver.mark ≡ totals_of 5 both_marks }
{}

/// Without one of them the totals are the other's, and follow from those of both. Where the only one that
/// stays below 2 goes, they don't.
pub fn totals_without_one()
    ensures stand { stand (totals_of 5 both_marks) giver.mark (unmarked 5) ≡ true }
    ensures left { totals_with (totals_of 5 both_marks) giver.mark (unmarked 5) ≡ totals_of 5 (taker ∷ []) }
    ensures anew { stand (totals_of 5 (mark_by 1 (2 ∷ []) ∷ [])) (mark_of 5 five_ops (2 ∷ [])) (unmarked 5) ≡ false }
{}

/// All is firm at 3 and at 4, where both may commit and nothing is above 5. At 2 they would take more
/// than there is, and at 5 one would give more than there is room for.
pub fn two_are_firm()
    ensures at_three { AreFirm 3 (totals_of 5 both_marks) }
    ensures at_four { AreFirm 4 (totals_of 5 both_marks) }
    ensures at_two { AreFirm 2 (totals_of 5 both_marks) → ⊥ }
    ensures at_five { AreFirm 5 (totals_of 5 both_marks) → ⊥ }
{}

/// Who found that there aren't 2 needs nothing, and stays below 2: after a give of another that would
/// no longer be so.
pub fn a_reply_has_a_limit()
    ensures need { need_of (mark_of 5 five_ops (2 ∷ [])) ≡ 0 }
    ensures limit { mark_limit (mark_of 5 five_ops (2 ∷ [])) ≡ 2 }
    ensures alone { AreFirm 1 (totals_of 5 (mark_by 1 (2 ∷ []) ∷ [])) }
    ensures beside { AreFirm 1 (totals_of 5 (mark_by 1 (2 ∷ []) ∷ mark_by 2 (0 ∷ []) ∷ [])) → ⊥ }
{}

/// Who found that there aren't 2, where there are 0, keeps another from each give of 2 or more. A give of
/// 6 is too much for the other itself.
pub fn a_reply_keeps_from_amounts()
    ensures kept { first_kept Way.Give 0 (totals_of 5 (mark_by 1 (2 ∷ []) ∷ [])) (unmarked 5) (mark_of 5 five_ops (2 ∷ [])) ≡ 2 }
    ensures beyond { first_beyond Way.Give 5 0 (unmarked 5) 0 0 ≡ 6 }
{}

/// At 4, beside one that took 1, a take of 4 is too much, and beside one that took 2 each from 3 on. At 0
/// a take of 1 is refused, and beside one that gave 1 this is no longer true. Nor is it, beside one that
/// took 2 of 5, that there is no room for 2.
pub fn others_make_it_too_much()
    ensures one { first_beyond Way.Take 5 4 (unmarked 5) 1 0 ≡ 4 }
    ensures two { first_beyond Way.Take 5 4 (unmarked 5) 2 0 ≡ 3 }
    ensures short { last_refused Way.Take 5 0 (unmarked 5) 0 1 ≡ 1 }
    ensures full { last_refused Way.Give 5 5 (unmarked 5) 2 0 ≡ 2 }
{}

/// Of 10, one took 1 and another took 9, and a third gave 80 and asks for 85. Both keep it from that. But
/// with the first alone there would be enough, and with the second there isn't: it is named, though it
/// came later. Whatever the first does, the third waits for the second.
pub fn who_alone_keeps_is_named()
    ensures first { mark_keeps 10 15 80 asker took_one ≡ true }
    ensures second { mark_keeps 10 15 80 asker took_nine ≡ true }
    ensures first_not_alone { mark_keeps_alone 10 asker took_one ≡ false }
    ensures second_alone { mark_keeps_alone 10 asker took_nine ≡ true }
    ensures first_near { moves_far 10 asker took_one ≡ false }
    ensures second_far { moves_far 10 asker took_nine ≡ true }
{}

/// Where 3 and 4 are listed, the least amount from 3 on is 5, and there is none above it; and the greatest
/// up to 4 is 2.
pub fn listed_amounts_are_passed()
    ensures first { IsLeastAmount listing_both Way.Take 0 1 }
    ensures passed { IsLeastAmount listing_both Way.Take 3 5 }
    ensures above { (n : ℕ) → 6 ≤ n → HasAmount listing_both Way.Take n → ⊥ }
    ensures last { IsMostAmount listing_both Way.Take 4 2 }
    ensures other { IsLeastAmount listing_both Way.Give 3 3 }
{}
