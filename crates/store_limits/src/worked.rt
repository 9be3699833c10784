//! Worked limits: each function does nothing, and its contract is the example.
#![tactic(auto)]

ghost use Rattle.std.specs.Prelude.{◌≡◌, true, false};
ghost use Rattle.store_limits.specs.Standard.{standard, standard_with, are_limits};

/// A history may have at least 2 events, and as many as the greatest limit says.
pub fn events_have_a_range()
    ensures too_low { are_limits 1000000 (standard_with 1) ≡ false }
    ensures least { are_limits 1000000 (standard_with 2) ≡ true }
    ensures most { are_limits 1000000 (standard_with 1000000) ≡ true }
    ensures too_high { are_limits 1000000 (standard_with 1000001) ≡ false }
    ensures lasting { are_limits 4294967295 (standard_with 4294967295) ≡ true }
    ensures no_longer { are_limits 4294967295 (standard_with 4294967296) ≡ false }
{}

/// From 1 to 65,536 transactions may be open, and there may be as many objects.
pub fn each_has_a_range()
    ensures none_open { are_limits 100 (record (standard_with 100) { «open» = 0 }) ≡ false }
    ensures most_open { are_limits 100 (record (standard_with 100) { «open» = 65536 }) ≡ true }
    ensures too_many_open { are_limits 100 (record (standard_with 100) { «open» = 65537 }) ≡ false }
    ensures no_object { are_limits 100 (record (standard_with 100) { objects = 0 }) ≡ false }
    ensures most_objects { are_limits 100 (record (standard_with 100) { objects = 65536 }) ≡ true }
    ensures too_many_objects { are_limits 100 (record (standard_with 100) { objects = 65537 }) ≡ false }
    ensures standard_ones { are_limits 1000000 standard ≡ true }
{}
