//! Lines of a keyword and numbers, spelled from their front where they stay.

ghost use Rattle.std.specs.Prelude.{◌≡◌, ◌+◌, ◌*◌, ◌<◌, ◌≤◌, ◌∷◌, ◌++◌, length, take};
ghost use Rattle.std.specs.Fmt.{decimal};
ghost use Rattle.outputs.specs.Numbers.{numbers_line};

use itoa::write_digits;

/// More than the bytes of a keyword and five numbers of 32 bits, with what is between them.
pub const LONGEST: usize = 64;

/// Writes a line of a keyword and numbers from a place of a buffer on, and returns where it ends. What comes
/// after the line may be changed.
#[inline(always)]
pub fn spell_line(buffer: &mut [u8], start: usize, keyword: &[u8], numbers: &[u32]) -> usize
    requires room { start + length keyword.now + 11 * length numbers.now < length buffer.old }
    ensures line { take result buffer.new ≡ take start buffer.old ++ numbers_line keyword.now numbers.now }
    ensures inside { (start ≤ result) × (result ≤ length buffer.new) }
    ensures as_long { length buffer.new ≡ length buffer.old }
{
    let mut end = spell_word(buffer, start, keyword);
    for number in numbers {
        end = spell_number(buffer, end, *number);
    }
    spell_word(buffer, end, b"\n")
}

/// Writes a word at a place, and returns where it ends.
#[inline(always)]
fn spell_word(buffer: &mut [u8], start: usize, word: &[u8]) -> usize
    requires { start + length word.now ≤ length buffer.old }
    ensures end { result ≡ start + length word.now }
    ensures word { take result buffer.new ≡ take start buffer.old ++ word.now }
    ensures as_long { length buffer.new ≡ length buffer.old }
{
    let end = start + word.len();
    buffer[start..end].copy_from_slice(word);
    end
}

/// Writes a space and the digits of a number at a place, and returns where they end.
#[inline(always)]
fn spell_number(buffer: &mut [u8], start: usize, n: u32) -> usize
    requires { start + 11 ≤ length buffer.old }
    ensures end { (start ≤ result) × (result ≤ start + 11) }
    ensures number { take result buffer.new ≡ take start buffer.old ++ 32 ∷ decimal n }
    ensures as_long { length buffer.new ≡ length buffer.old }
{
    buffer[start] = b' ';
    if n < 10 {
        buffer[start + 1] = b'0' + n as u8;
        start + 2
    } else {
        spell_digits(buffer, start + 1, n)
    }
}

/// Writes the digits of a number that has several at a place, and returns where they end.
fn spell_digits(buffer: &mut [u8], start: usize, n: u32) -> usize
    requires room { start + 10 ≤ length buffer.old }
    requires several { 10 ≤ n }
    ensures end { (start ≤ result) × (result ≤ start + 10) }
    ensures digits { take result buffer.new ≡ take start buffer.old ++ decimal n }
    ensures as_long { length buffer.new ≡ length buffer.old }
{
    let end = start + digit_count(n);
    write_digits(u64::from(n), buffer, end);
    end
}

/// How many digits a number has that has several.
fn digit_count(n: u32) -> usize
    requires { 10 ≤ n }
    ensures exact { result ≡ length (decimal n) }
    ensures few { result ≤ 10 }
{
    if n < 1_000_000 {
        short_count(n)
    } else {
        long_count(n)
    }
}

/// How many digits a number of two to six digits has.
#[tactic(auto, using(crate::proofs::Numbers::digits_2, crate::proofs::Numbers::digits_3, crate::proofs::Numbers::digits_4, crate::proofs::Numbers::digits_5, crate::proofs::Numbers::digits_6))]
fn short_count(n: u32) -> usize
    requires { (10 ≤ n) × (n < 1000000) }
    ensures exact { result ≡ length (decimal n) }
    ensures few { result ≤ 10 }
{
    if n < 100 {
        2
    } else if n < 1_000 {
        3
    } else if n < 10_000 {
        4
    } else if n < 100_000 {
        5
    } else {
        6
    }
}

/// How many digits a number of seven to ten digits has.
#[cold]
#[tactic(auto, using(crate::proofs::Numbers::digits_7, crate::proofs::Numbers::digits_8, crate::proofs::Numbers::digits_9, crate::proofs::Numbers::digits_10))]
fn long_count(n: u32) -> usize
    requires { 1000000 ≤ n }
    ensures exact { result ≡ length (decimal n) }
    ensures few { result ≤ 10 }
{
    if n < 10_000_000 {
        7
    } else if n < 100_000_000 {
        8
    } else if n < 1_000_000_000 {
        9
    } else {
        10
    }
}
