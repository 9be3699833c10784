//! Worked examples of the definitions: each function does nothing, and its contract is the example.
#![tactic(auto)]

ghost use Rattle.std.specs.Prelude.{true, false, [], ◌∷◌};
ghost use Rattle.table_checker.specs.Examples.{counter_file, ups_alone};
ghost use Rattle.table_maker.specs.Made.{IsFileOfFamily};
ghost use Rattle.table_families.specs.Counter.{counter};
ghost use Rattle.made_answers.specs.Answers.{HasClosedSet, IsAnsweredStrongly, IsAnsweredYes};

use crate::laws::amounts_are_accepted;
use type_table::Kind;

/// The file of the counter of two is the family's: each pair of states and of operations was looked at by hand.
#[tactic(auto, using(crate::proofs::Examples::counter_is_made))]
pub fn the_counter_of_two_is_made()
    ensures { IsFileOfFamily (counter 2 (1 ∷ [])) counter_file }
{}

/// So the checker says yes for each kind of recovery, and strongly.
pub fn it_is_accepted_for_each_kind()
    ensures undo { IsAnsweredStrongly Kind.Undo counter_file }
    ensures intentions { IsAnsweredStrongly Kind.Intentions counter_file }
    ensures escrow { IsAnsweredStrongly Kind.Escrow counter_file }
{
    the_counter_of_two_is_made();
    amounts_are_accepted();
}

/// It doesn't for deferred update without the pair of two downs.
pub fn without_the_downs_it_is_not()
    ensures { IsAnsweredYes Kind.Intentions (record counter_file { intentions = ups_alone }) → ⊥ }
{
    table_checker::worked::counter_without_the_downs_fails_first_at_them();
}

/// Nor where the set is without the state 2, to which an up leads from 1.
pub fn nor_where_a_step_leaves_the_set()
    ensures set { HasClosedSet (record counter_file { reach = true ∷ true ∷ false ∷ [] }) → ⊥ }
    ensures answer { IsAnsweredYes Kind.Undo (record counter_file { reach = true ∷ true ∷ false ∷ [] }) → ⊥ }
{}
