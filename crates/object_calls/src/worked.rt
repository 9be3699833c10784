//! Worked examples of the definitions: each function does nothing, and its contract is the example.
#![tactic(auto, unfolding(type_table::specs::Table::next))]

ghost use Rattle.std.specs.Prelude.{◌≡◌, ℕ, [], ◌∷◌, Some, None, codes};
ghost use Rattle.type_table.specs.Operation.{operation_at, place_of};
ghost use Rattle.type_table.specs.Table.{call_of, first_op};
ghost use Rattle.object_trait.specs.Examples.{held, counter_at};
ghost use Rattle.object_calls.specs.Answers.{answer_of};
ghost use Rattle.object_calls.specs.Ends.{times_in};
ghost use Rattle.object_calls.specs.Calls.{HasOperations, IsCall, by_name, by_number, IsCallTable};
ghost use Rattle.object_calls.specs.Examples.{bit, read, flip, bit_calls, purse_value_call};
ghost use Rattle.number_types.specs.Examples.{purse};
ghost use Rattle.number_types.specs.Operations.{number_table};

use crate::answer::Answer;
use type_table::Kind;

pub fn a_held_operation_blocks_another()
    ensures free { answer_of (counter_at Kind.Undo 0 (held 1 0 ∷ [])) 2 0 ≡ Answer.Reply 0 }
    ensures blocked { answer_of (counter_at Kind.Undo 0 (held 1 0 ∷ [])) 2 1 ≡ Answer.Busy 1 }
    ensures own { answer_of (counter_at Kind.Undo 0 (held 1 0 ∷ [])) 1 1 ≡ Answer.Reply 1 }
{}

pub fn no_operation_is_legal()
    ensures empty { answer_of (counter_at Kind.Undo 0 []) 2 1 ≡ Answer.None }
    ensures full { answer_of (counter_at Kind.Undo 1 (held 1 0 ∷ [])) 2 0 ≡ Answer.None }
{}

pub fn places_are_counted()
    ensures twice { times_in 3 (3 ∷ 1 ∷ 3 ∷ []) ≡ 2 }
    ensures once { times_in 1 (3 ∷ 1 ∷ 3 ∷ []) ≡ 1 }
    ensures never { times_in 2 (3 ∷ 1 ∷ 3 ∷ []) ≡ 0 }
{}

pub fn calls_are_found_by_name()
    ensures first { by_name bit_calls (codes "read") ≡ Some read }
    ensures second { by_name bit_calls (codes "flip") ≡ Some flip }
    ensures absent { by_name bit_calls (codes "rea") ≡ None }
{}

pub fn calls_are_found_by_number()
    ensures first { by_number bit_calls 0 ≡ Some read }
    ensures second { by_number bit_calls 1 ≡ Some flip }
    ensures not_its_least { by_number bit_calls 2 ≡ None }
{}

pub fn words_have_the_operations_of_a_call()
    ensures first { HasOperations bit 0 5 }
    ensures second { HasOperations bit 1 10 }
    ensures missing { HasOperations bit 0 1 → ⊥ }
    ensures foreign { HasOperations bit 0 7 → ⊥ }
    ensures past_all { HasOperations bit 0 21 → ⊥ }
{}

pub fn calls_are_numbered_by_their_least()
    ensures least { IsCall bit read }
    ensures not_its_least { IsCall bit (record { first = 2; operations = 5 }) → ⊥ }
{}

pub fn calls_of_a_bit()
    ensures all { IsCallTable bit bit_calls }
    ensures none { IsCallTable bit [] → ⊥ }
{}

pub fn a_call_of_the_purse()
    ensures call { IsCall (number_table purse) purse_value_call }
    ensures half_a_line { IsCall (number_table purse) (record { first = purse_value_call.first; operations = 64 }) → ⊥ }
{}

/// A place tells a call of a table. Of a number it tells the line alone: `take:4` and `take:5` are both at the place 2.
pub fn calls_at_a_place()
    ensures of_a_table { (d : ℕ) → first_op bit (call_of bit d) ≡ Some d → place_of d ≡ 1 → 1 ≡ d }
    ensures four { first_op (number_table purse) (call_of (number_table purse) (operation_at 2 (Some 4))) ≡ Some (operation_at 2 (Some 4)) }
    ensures five { first_op (number_table purse) (call_of (number_table purse) (operation_at 2 (Some 5))) ≡ Some (operation_at 2 (Some 5)) }
{}
