//! A worked example: the function does nothing, and its contract is the example.

ghost use Rattle.std.specs.Prelude.{◌≡◌, None, Some};
ghost use Rattle.serving.specs.Examples.{two_carried};
ghost use Rattle.serving.specs.Names.{known_name, named, number_named};

/// In life 4 the transaction that life 3 began as 5 has the number 1. It is found by its name 3.5, and nobody is by 4.1. The
/// first that life 4 begins is 4.2.
pub fn names_of_carried_ones()
    ensures known { known_name two_carried 1 ≡ named 3 5 }
    ensures found { number_named two_carried (named 3 5) ≡ Some 1 }
    ensures nobody { number_named two_carried (named 4 1) ≡ None }
    ensures begun { known_name two_carried 2 ≡ named 4 2 }
    ensures own { number_named two_carried (named 4 2) ≡ Some 2 }
    ensures ended { number_named two_carried (named 3 1) ≡ None }
{}
