//! Worked examples of the definitions: each function does nothing, and its contract is the example.

ghost use Rattle.std.specs.Prelude.{◌≡◌, [], ◌∷◌, Some, None};
ghost use Rattle.type_table.specs.Examples.{forward_pairs};
ghost use Rattle.op_locks.specs.Locks.{blocking_holder, is_held_by, held_count, held_without};
ghost use Rattle.object_trait.specs.Strike.{keep_first};
ghost use Rattle.op_locks.specs.Examples.{hold, three_held, one_pair};

pub fn the_earliest_blocks()
    ensures first { blocking_holder forward_pairs 6 0 three_held ≡ Some 4 }
    ensures later { blocking_holder forward_pairs 6 1 three_held ≡ Some 5 }
    ensures nobody { blocking_holder forward_pairs 6 1 (hold 4 0 ∷ []) ≡ None }
{}

pub fn own_operations_do_not_block()
    ensures alone { blocking_holder forward_pairs 5 1 (hold 5 1 ∷ []) ≡ None }
    ensures passed { blocking_holder forward_pairs 5 1 three_held ≡ Some 4 }
{}

pub fn requested_against_held()
    ensures requested { blocking_holder one_pair 6 0 (hold 4 1 ∷ []) ≡ Some 4 }
    ensures exchanged { blocking_holder one_pair 6 1 (hold 4 0 ∷ []) ≡ None }
{}

pub fn three_are_held()
    ensures two { held_count 4 three_held ≡ 2 }
    ensures none { held_count 6 three_held ≡ 0 }
{}

pub fn others_stay_in_order()
    ensures one { held_without 5 three_held ≡ hold 4 0 ∷ hold 4 1 ∷ [] }
    ensures two { held_without 4 three_held ≡ hold 5 1 ∷ [] }
    ensures none { held_without 6 three_held ≡ three_held }
{}

pub fn the_first_are_left()
    ensures two { keep_first (is_held_by 4) 2 three_held ≡ three_held }
    ensures one { keep_first (is_held_by 4) 1 three_held ≡ hold 4 0 ∷ hold 5 1 ∷ [] }
    ensures none { keep_first (is_held_by 4) 0 three_held ≡ hold 5 1 ∷ [] }
{}
