//! Worked examples of the definitions: each function does nothing, and its contract is the example.
#![tactic(auto, unfolding(crate::specs::TransactionKey::is_transaction_key, object_name::specs::ObjectName::is_object_name))]

ghost use Rattle.std.specs.Prelude.{◌≡◌, [], replicate, true, false, codes};
ghost use Rattle.transaction_key.specs.TransactionKey.{is_transaction_key, key_place};

/// A key has 1 to 64 bytes, and each is one that a key may have.
pub fn words_that_are_keys()
    ensures each_kind { is_transaction_key (codes "order:4711-2026.11.28_A") ≡ true }
    ensures one_byte { is_transaction_key (codes "7") ≡ true }
    ensures no_byte { is_transaction_key [] ≡ false }
    ensures longest { is_transaction_key (replicate 64 65) ≡ true }
    ensures too_long { is_transaction_key (replicate 65 65) ≡ false }
    ensures space { is_transaction_key (codes "A 12") ≡ false }
    ensures slash { is_transaction_key (codes "order/4711") ≡ false }
{}

/// The SHA-256 of `abc` begins with the bytes ba 78 16 bf 8f 01 cf ea (FIPS 180-4).
pub fn a_place()
    ensures { key_place (codes "abc") ≡ 3359128625063425018 }
{}
