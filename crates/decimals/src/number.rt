//! Numbers of up to seven digits, and the tests of digits.

ghost use Rattle.std.specs.Prelude.{◌≡◌, ◌&&◌, ◌==◌, nat_lt, length, slice_index};
ghost use Rattle.decimals.specs.Decimals.{is_digit, number_of};

/// The most digits of a number.
pub const MOST_DIGITS: usize = 7;

/// The number that a word is, 0 to 9,999,999: `0`, or one to seven decimal digits without a leading zero. `None` for
/// any other word.
pub fn number_of(word: &[u8]) -> Option<u32>
    ensures { result ≡ number_of word.now }
{
    if word.is_empty() || word.len() > MOST_DIGITS || has_leading_zero(word) {
        return None;
    }
    let mut number = 0;
    for digit in word {
        if !is_digit(*digit) {
            return None;
        }
        number = 10 * number + u32::from(*digit - b'0');
    }
    Some(number)
}

/// Whether a word of more than one byte begins with a zero.
pub fn has_leading_zero(word: &[u8]) -> bool
    ensures { result ≡ (nat_lt 1 (length word.now) && slice_index word.now 0 == 48) }
{
    word.len() > 1 && word[0] == b'0'
}

/// Whether a byte is a decimal digit.
pub fn is_digit(b: u8) -> bool
    ensures { result ≡ is_digit b }
{
    b'0' <= b && b <= b'9'
}
