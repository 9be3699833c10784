//! Worked examples of the definitions: each function does nothing, and its contract is the example.
#![tactic(auto)]

ghost use Rattle.std.specs.Prelude.{◌≡◌, ℕ, List, [], None, Some, codes};
ghost use Rattle.outputs.specs.declared.gathered.Gathered.{Gathered};
ghost use Rattle.outputs.specs.Gathered.{waiting, taken_by};
ghost use Rattle.outputs.specs.Examples.{HasGathered};

/// Of three gathered bytes one was handed on: the other two are waiting, and count as taken.
pub fn gathered_bytes_count_as_taken()
    ensures waiting { (g : Gathered (List ℕ)) → HasGathered (codes "xa") (codes "abc") 1 g → waiting g ≡ codes "bc" }
    ensures taken { (g : Gathered (List ℕ)) → HasGathered (codes "xa") (codes "abc") 1 g → taken_by Some g ≡ Some (codes "xabc") }
    ensures handed_on { (g : Gathered (List ℕ)) → HasGathered (codes "xabc") (codes "abc") 3 g → waiting g ≡ [] }
    ensures untold { (g : Gathered (List ℕ)) → taken_by (λ _. None) g ≡ None }
{}
