//! Worked examples of the definitions: each function does nothing, and its contract is the example.
#![tactic(auto)]

ghost use Rattle.std.specs.Prelude.{◌≡◌, Some, None, codes};
ghost use Rattle.decimals.specs.Decimals.{number_of, long_number_of};

pub fn numbers_have_seven_digits()
    ensures least { number_of (codes "0") ≡ Some 0 }
    ensures seven { number_of (codes "9999999") ≡ Some 9999999 }
    ensures eight { number_of (codes "10000000") ≡ None }
    ensures leading_zero { number_of (codes "01") ≡ None }
    ensures letter { number_of (codes "1a") ≡ None }
{}

pub fn long_numbers_have_ten_digits()
    ensures least { long_number_of (codes "0") ≡ Some 0 }
    ensures ten { long_number_of (codes "9999999999") ≡ Some 9999999999 }
    ensures eleven { long_number_of (codes "10000000000") ≡ None }
    ensures leading_zero { long_number_of (codes "01") ≡ None }
    ensures letter { long_number_of (codes "1a") ≡ None }
{}
