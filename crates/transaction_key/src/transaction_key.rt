ghost use Rattle.std.specs.Prelude.{◌≡◌, ◌<◌, ◌^◌, Some, None, true, take, if◌then◌else◌};
ghost use Rattle.std.specs.Cmp.{partial_equiv_from_equiv};
ghost use Rattle.std.specs.Cmp.Lexicographic.{nat_list_eq_equiv};
ghost use Rattle.std.specs.Int.{w64, from_be_bytes};
ghost use Rattle.std.specs.Str.{bytes_eq};
ghost use Rattle.transaction_key.specs.TransactionKey.{is_transaction_key, key_place};

use object_name::ObjectName;
use sha2::{Digest, Sha256};
use std::marker::Model;

/// The key of a transaction, which its client chose: 1 to 64 bytes of `a` to `z`, `A` to `Z`, `0` to `9`, `_`, `:`, `-` and
/// `.`.
///
/// Contracts see a key as the list of its bytes.
#[derive(Clone, Copy)]
pub struct TransactionKey {
    name: ObjectName,
    // Its digest is computed once: a store that is asked under a key compares it with the places of many.
    place: u64,
}

impl Model for TransactionKey {
    ghost use Rattle.std.specs.Prelude.{◌≡◌, ◌<◌, ◌^◌, ℕ, List, true};
    ghost use Rattle.transaction_key.specs.TransactionKey.{is_transaction_key, key_place};

    ghost Value = { List ℕ };

    ghost view = { λ k. k.name };

    ghost invariant = { λ k. (is_transaction_key k.name ≡ true) × (k.place ≡ key_place k.name) × (k.place < 2 ^ 62) };

    ghost inverse = { λ w. record { name = w; place = key_place w } };
}

impl TransactionKey {
    /// The key of these bytes, where they are one.
    #[tactic(auto, unfolding(crate::specs::TransactionKey::is_transaction_key))]
    pub fn from_bytes(bytes: &[u8]) -> Option<TransactionKey>
        ensures { result ≡ (if is_transaction_key bytes.now then Some bytes.now else None) }
    {
        let name = ObjectName::from_bytes(bytes)?;
        if bytes.contains(&b'/') {
            return None;
        }
        let place = place_of(bytes);
        Some(TransactionKey { name, place })
    }

    /// The bytes of the key, and what is known of each key.
    pub fn as_bytes(&self) -> &[u8]
        ensures exact { result.now ≡ self.now }
        ensures key { is_transaction_key self.now ≡ true }
    {
        self.name.as_bytes()
    }

    /// The number of the row that says what became of its transaction: the first 62 bits of the key's SHA-256.
    pub fn place(&self) -> u64
        ensures exact { result ≡ key_place self.now }
        ensures short { result < 2 ^ 62 }
    {
        self.place
    }
}

/// Keys are equal where their bytes are.
impl PartialEq for TransactionKey {
    ghost eq = { bytes_eq };

    ghost laws = { partial_equiv_from_equiv nat_list_eq_equiv };

    fn eq(&self, other: &TransactionKey) -> bool {
        self.name == other.name
    }
}

impl Eq for TransactionKey {
    ghost laws = { nat_list_eq_equiv };
}

/// The first 62 bits of the SHA-256 of these bytes.
#[tactic(auto, unfolding(crate::specs::TransactionKey::key_place))]
fn place_of(bytes: &[u8]) -> u64
    ensures exact { result ≡ key_place bytes.now }
    ensures short { result < 2 ^ 62 }
{
    let digest = Sha256::digest(bytes);
    first_eight(&digest) / 4
}

/// The first eight bytes of a digest as a number, the highest byte first.
fn first_eight(digest: &[u8; 32]) -> u64
    ensures { result ≡ from_be_bytes w64 (take 8 digest.now) }
{
    u64::from_be_bytes([
        digest[0], digest[1], digest[2], digest[3], digest[4], digest[5], digest[6], digest[7],
    ])
}
