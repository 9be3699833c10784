//! The words of lines as they are usually written, taken from the front of a text.

ghost use Rattle.std.specs.Prelude.{◌≡◌, ◌==◌, ◌<◌, ◌≤◌, ◌∷◌, ◌++◌, length, take, position, true, IfSome};
ghost use Rattle.std.specs.List.{list_all};
ghost use Rattle.decimals.specs.Decimals.{is_digit, number_value};
ghost use Rattle.line_text.specs.Plain.{IsNumberBefore};

use decimals::{MOST_DIGITS, has_leading_zero, is_digit};

/// The number at the front of a text that this byte ends, and what comes after that byte. A text that has no
/// byte after the most digits isn't looked at.
#[inline(always)]
pub fn number_before(text: &[u8], stop: u8) -> Option<(u32, &[u8])>
    ensures { IfSome result (λ taken. IsNumberBefore stop text.now taken.0 taken.1.now) }
{
    // one test of the length, so that the compiler writes the loop out
    if text.len() <= MOST_DIGITS {
        return None;
    }
    let mut number = 0;
    for count in 0..MOST_DIGITS {
        let digit = text[count];
        if !is_digit(digit) {
            return behind_digits(text, count, number, stop);
        }
        number = 10 * number + u32::from(digit - b'0');
    }
    behind_digits(text, MOST_DIGITS, number, stop)
}

/// The same where this many digits are at the front of the text and say this number.
#[inline(always)]
fn behind_digits(text: &[u8], count: usize, number: u32, stop: u8) -> Option<(u32, &[u8])>
    requires within { count < length text.now }
    requires short { count ≤ 7 }
    requires digits { list_all is_digit (take count text.now) ≡ true }
    requires value { number ≡ number_value (take count text.now) }
    ensures { IfSome result (λ taken. IsNumberBefore stop text.now taken.0 taken.1.now) }
{
    if count > 0 && text[count] == stop && !has_leading_zero(&text[..count]) {
        Some((number, &text[count + 1..]))
    } else {
        None
    }
}

/// The bytes of a text before the first such byte, and what comes after that.
#[inline(always)]
pub fn bytes_before(text: &[u8], stop: u8) -> Option<(&[u8], &[u8])>
    ensures { IfSome result (λ taken. text.now ≡ taken.0.now ++ stop ∷ taken.1.now) }
{
    let end = place_of_byte(text, stop)?;
    Some((&text[..end], &text[end + 1..]))
}

/// The place of the first such byte.
#[inline]
fn place_of_byte(text: &[u8], byte: u8) -> Option<usize>
    ensures place { result ≡ position (λ b. b == byte) text.now }
    ensures within { IfSome result (λ place. place < length text.now) }
{
    text.iter().position(|b| *b == byte)
}
