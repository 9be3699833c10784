//! Numbers and transactions in words.

ghost use Rattle.std.specs.Prelude.{◌≡◌, ◌&&◌, ◌==◌, ◌<◌, nat_lt, length, slice_index, IfSome};
ghost use Rattle.decimals.specs.Decimals.{is_digit};
ghost use Rattle.request_text.specs.Numbers.{request_number, short_number, transaction_of, point_in};

use crate::request::TransactionName;

/// The most digits of a number.
const MOST_DIGITS: usize = 10;

/// The number of 32 bits that a word is: `0`, or decimal digits without a leading zero.
pub fn number_of(word: &[u8]) -> Option<u32>
    ensures { result ≡ request_number word.now }
{
    if word.is_empty() || word.len() > MOST_DIGITS || has_leading_zero(word) {
        return None;
    }
    let mut number: u64 = 0;
    for digit in word {
        if !is_digit(*digit) {
            return None;
        }
        number = 10 * number + u64::from(*digit - b'0');
    }
    short(number)
}

/// A number of 32 bits.
fn short(number: u64) -> Option<u32>
    ensures { result ≡ short_number number }
{
    u32::try_from(number).ok()
}

fn has_leading_zero(word: &[u8]) -> bool
    ensures { result ≡ (nat_lt 1 (length word.now) && slice_index word.now 0 == 48) }
{
    word.len() > 1 && word[0] == b'0'
}

fn is_digit(b: u8) -> bool
    ensures { result ≡ is_digit b }
{
    b'0' <= b && b <= b'9'
}

/// The transaction that a word is: a life and a number with a point between.
pub fn transaction_of(word: &[u8]) -> Option<TransactionName>
    ensures { result ≡ transaction_of word.now }
{
    let at = point_in(word)?;
    let life = number_of(&word[..at])?;
    let number = number_of(&word[at + 1..])?;
    Some(TransactionName { life, number })
}

/// The place of the first point.
fn point_in(word: &[u8]) -> Option<usize>
    ensures place { result ≡ point_in word.now }
    ensures within { IfSome result (λ at. at < length word.now) }
{
    word.iter().position(|b| *b == b'.')
}
