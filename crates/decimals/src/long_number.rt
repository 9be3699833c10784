//! Numbers of up to ten digits.

ghost use Rattle.std.specs.Prelude.{◌≡◌};
ghost use Rattle.decimals.specs.Decimals.{long_number_of};

use crate::number::{has_leading_zero, is_digit};

/// The most digits of a long number.
const MOST_DIGITS: usize = 10;

/// The number that a word is, 0 to 9,999,999,999, so a u64: `0`, or one to ten decimal digits without a
/// leading zero. `None` for any other word.
pub fn long_number_of(word: &[u8]) -> Option<u64>
    ensures { result ≡ long_number_of word.now }
{
    if word.is_empty() || word.len() > MOST_DIGITS || has_leading_zero(word) {
        return None;
    }
    let mut number = 0;
    for digit in word {
        if !is_digit(*digit) {
            return None;
        }
        number = 10 * number + u64::from(*digit - b'0');
    }
    Some(number)
}
