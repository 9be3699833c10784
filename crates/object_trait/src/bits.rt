//! Words with a bit for each of 64 operations.

ghost use Rattle.std.specs.Prelude.{◌≡◌, ◌<◌, ℕ};
ghost use Rattle.std.specs.Int.{bit_at};

use type_table::Operation;

/// The word with the bit of an operation too, where it has one.
pub fn with_bit(word: u64, op: Operation) -> u64
    ensures added { op < 64 → bit_at result op ≡ 1 }
    ensures kept { (q : ℕ) → bit_at word q ≡ 1 → bit_at result q ≡ 1 }
{
    with_place(word, op.place())
}

/// The word with the bit of a place too, where it has one.
fn with_place(word: u64, place: u8) -> u64
    ensures added { place < 64 → bit_at result place ≡ 1 }
    ensures kept { (q : ℕ) → bit_at word q ≡ 1 → bit_at result q ≡ 1 }
{
    if place >= 64 {
        return word;
    }
    word | 1 << place
}
