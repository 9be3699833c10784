//! Bits in words of 64 bits: the bit at a position is in word position / 64, at position % 64.

ghost use Rattle.std.specs.Prelude.{◌≡◌, ℕ, ◌/◌, ◌<◌, ◌==◌, ◌||◌, length};
ghost use Rattle.equi_cert.specs.Bits.{has_bit};

/// Whether the bit at a position is set.
pub fn has_bit(words: &[u64], position: usize) -> bool
    requires { position / 64 < length words.now }
    ensures { result ≡ has_bit words.now position }
{
    let word = words[position / 64];
    word >> (position % 64) & 1 == 1
}

/// Sets the bit at a position.
pub fn set_bit(words: &mut [u64], position: usize)
    requires { position / 64 < length words.old }
    ensures { (i : ℕ) → has_bit words.new i ≡ (has_bit words.old i || i == position) }
{
    let word = words[position / 64];
    words[position / 64] = word | 1 << (position % 64);
}
