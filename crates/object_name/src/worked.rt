//! Worked examples of the definitions: each function does nothing, and its contract is the example.
#![tactic(auto, unfolding(crate::specs::ObjectName::is_object_name))]

ghost use Rattle.std.specs.Prelude.{◌≡◌, [], replicate, true, false, Some, None, codes};
ghost use Rattle.object_name.specs.ObjectName.{is_object_name, is_same_name};

/// A name has 1 to 64 bytes, and each is one that a name may have.
pub fn words_that_are_names()
    ensures each_kind { is_object_name (codes "flight:LH-455/2026.11.28_A12") ≡ true }
    ensures one_byte { is_object_name (codes "7") ≡ true }
    ensures no_byte { is_object_name [] ≡ false }
    ensures longest { is_object_name (replicate 64 65) ≡ true }
    ensures too_long { is_object_name (replicate 65 65) ≡ false }
    ensures space { is_object_name (codes "A 12") ≡ false }
    ensures before_a_digit { is_object_name (codes "A,12") ≡ false }
    ensures before_a_letter { is_object_name (codes "A@12") ≡ false }
    ensures behind_a_letter { is_object_name (codes "A12[") ≡ false }
{}

/// Names are the same where their bytes are; objects without a name have none in common.
pub fn names_that_are_the_same()
    ensures same { is_same_name (Some (codes "A12")) (Some (codes "A12")) ≡ true }
    ensures other_case { is_same_name (Some (codes "A12")) (Some (codes "a12")) ≡ false }
    ensures longer { is_same_name (Some (codes "A12")) (Some (codes "A1")) ≡ false }
    ensures nameless { is_same_name None None ≡ false }
    ensures one_nameless { is_same_name (Some (codes "A12")) None ≡ false }
{}
