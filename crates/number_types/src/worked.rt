//! Worked examples of the definitions: each function does nothing, and its contract is the example.
#![tactic(auto)]

ghost use Rattle.std.specs.Prelude.{◌≡◌, ◌∷◌, [], map, true, false, Some, None, codes};
ghost use Rattle.type_table.specs.Operation.{operation_at};
ghost use Rattle.type_table.specs.Table.{first_op};
ghost use Rattle.number_types.specs.declared.number_call.NumberCall.TheVariants.{Take};
ghost use Rattle.number_types.specs.declared.number_op.NumberOp.TheVariants as ops;
ghost use Rattle.number_types.specs.Calls.{are_ascending};
ghost use Rattle.number_types.specs.Operations.{op_at, op_done, op_names, op_with, op_bounds, number_rows, number_table, taking, giving, reading};
ghost use Rattle.number_types.specs.Examples.{five, purse};

pub fn operations_of_five()
    ensures ascending { are_ascending five.calls ≡ true }
    ensures equal { are_ascending (Take 2 ∷ Take 2 ∷ []) ≡ false }
    ensures rows { number_rows five
        ≡ op_with (codes "take:2") (codes "ok") ∷ op_with (codes "take:2") (codes "short")
        ∷ op_with (codes "give:1") (codes "ok") ∷ op_with (codes "give:1") (codes "full")
        ∷ op_with (codes "atleast:5") (codes "yes") ∷ op_with (codes "atleast:5") (codes "no") ∷ [] }
    ensures first { op_at five 0 ≡ Some (ops.Take 2) }
    ensures last { op_at five 5 ≡ Some (ops.Below 5) }
    ensures no_more { op_at five 6 ≡ None }
    ensures no_amount { op_at five (operation_at 0 (Some 2)) ≡ None }
    ensures bounds { map (op_bounds 5) (ops.Take 2 ∷ ops.Short 2 ∷ ops.Give 1 ∷ ops.Full 1 ∷ ops.AtLeast 5 ∷ ops.Below 5 ∷ [])
        ≡ taking 2 5 2 ∷ reading 0 1 ∷ giving 0 4 1 ∷ reading 5 5 ∷ reading 5 5 ∷ reading 0 4 ∷ [] }
{}

/// Any amount that isn't listed has an operation, and so has each value.
pub fn operations_of_any_amount()
    ensures taken { op_at purse (operation_at 2 (Some 4)) ≡ Some (ops.Take 4) }
    ensures listed { op_done purse (operation_at 2 (Some 3)) ≡ None }
    ensures unlisted { op_done purse (operation_at 2 (Some 4)) ≡ Some (ops.Take 4) }
    ensures as_listed { op_at purse 0 ≡ Some (ops.Take 3) }
    ensures nothing { op_at purse (operation_at 2 (Some 0)) ≡ None }
    ensures too_much { op_at purse (operation_at 2 (Some 10)) ≡ None }
    ensures without { op_at purse 2 ≡ None }
    ensures full { op_at purse (operation_at 5 (Some 9)) ≡ Some (ops.Full 9) }
    ensures empty { op_at purse (operation_at 6 (Some 0)) ≡ Some (ops.Value 0) }
    ensures most { op_at purse (operation_at 6 (Some 9)) ≡ Some (ops.Value 9) }
    ensures past { op_at purse (operation_at 6 (Some 10)) ≡ None }
    ensures one { op_at purse (operation_at 7 (Some 1)) ≡ None }
    ensures value { op_bounds 9 (ops.Value 4) ≡ reading 4 4 }
    ensures names { op_names (ops.Value 4) ≡ op_with (codes "value") (codes "4") }
{}

/// A name asks for an amount that is listed, for any other, or for none.
pub fn names_at_the_purse()
    ensures listed { first_op (number_table purse) (codes "take:3") ≡ Some 0 }
    ensures any { first_op (number_table purse) (codes "take:4") ≡ Some (operation_at 2 (Some 4)) }
    ensures given { first_op (number_table purse) (codes "give:3") ≡ Some (operation_at 4 (Some 3)) }
    ensures value { first_op (number_table purse) (codes "value") ≡ Some (operation_at 6 (Some 0)) }
    ensures nothing { first_op (number_table purse) (codes "take:0") ≡ None }
    ensures too_much { first_op (number_table purse) (codes "take:10") ≡ None }
    ensures unlisted { first_op (number_table purse) (codes "atleast:3") ≡ None }
    ensures leading_zero { first_op (number_table purse) (codes "take:007") ≡ None }
    ensures no_amount { first_op (number_table purse) (codes "take:any") ≡ None }
{}
