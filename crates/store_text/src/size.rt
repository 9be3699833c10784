//! How many objects a text may have, which the first of its lines that has words may say.

ghost use Rattle.std.specs.Prelude.{◌≡◌, ◌<◌, ◌==◌, ◌∷◌, [], List, ℕ, length, not, true, false, position, MatchOption, IfSome};
ghost use Rattle.line_text.specs.Text.{content_of, is_comment, lines_of, words_of};
ghost use Rattle.store_text.specs.Size.{may_have, first_words, size_in, text_size, size_or_most, size_said, IsSize};

use decimals::number_of;
use store_limits::Limits;

/// The most objects that a text may have.
pub const MOST_SIZE: u32 = 65_536;

/// The number of objects that a text may have: the one that it says, or 256.
pub fn may_have(size: Option<u32>) -> u32
    ensures { result ≡ may_have size }
{
    match size {
        Some(size) => size,
        None => Limits::standard().objects,
    }
}

/// What a text says of the number of its objects, by the first of its lines that has words. It takes no
/// memory.
pub fn text_size(text: &[u8]) -> Option<u32>
    ensures exact { result ≡ text_size text.now }
    ensures fits { IfSome result IsSize }
{
    match first_line(text) {
        Some(line) => size_in(line),
        None => None,
    }
}

/// The first line of a text that has words.
fn first_line(text: &[u8]) -> Option<&[u8]>
    ensures { MatchOption result
        (first_words (lines_of text.now) ≡ [])
        (λ line. first_words (lines_of text.now) ≡ words_of line.now) }
{
    for line in text.split(|b| *b == b'\n') {
        if has_words(line) {
            return Some(line);
        }
    }
    None
}

/// Whether a line has words; a comment has none.
fn has_words(line: &[u8]) -> bool
    ensures some { result ≡ not (length (content_of line.now) == 0) }
    ensures told { result ≡ true → is_comment line.now ≡ false }
{
    !is_comment(line) && take_word(line).is_some()
}

fn is_comment(line: &[u8]) -> bool
    ensures { result ≡ is_comment line.now }
{
    match line {
        [first, ..] => *first == b'#',
        [] => false,
    }
}

/// What a line says of the number of objects, where it is an `objects` line.
fn size_in(line: &[u8]) -> Option<u32>
    ensures exact { result ≡ size_in (words_of line.now) }
    ensures fits { IfSome result IsSize }
{
    match take_word(line) {
        Some((key, rest)) if key == b"objects".as_slice() => Some(size_said(rest)),
        _ => None,
    }
}

/// The number that the words behind the keyword say; where that is none, or there are more, the line is refused,
/// whatever is said here.
fn size_said(rest: &[u8]) -> u32
    ensures exact { (key : List ℕ) → result ≡ size_said (key ∷ words_of rest.now) }
    ensures fits { IsSize result }
{
    match take_word(rest) {
        Some((number, behind)) if take_word(behind).is_none() => size_or_most(number_of(number)),
        _ => MOST_SIZE,
    }
}

fn size_or_most(number: Option<u32>) -> u32
    ensures exact { result ≡ size_or_most number }
    ensures fits { IsSize result }
{
    match number {
        Some(n) if 1 <= n && n <= MOST_SIZE => n,
        _ => MOST_SIZE,
    }
}

/// The first word of a line, and what comes after it.
fn take_word(line: &[u8]) -> Option<(&[u8], &[u8])>
    ensures { MatchOption result
        (words_of line.now ≡ [])
        (λ taken. words_of line.now ≡ taken.0.now ∷ words_of taken.1.now) }
{
    let start = word_start(line)?;
    let front = &line[start..];
    match word_end(front) {
        Some(end) => Some((&front[..end], &front[end + 1..])),
        None => Some((front, &front[front.len()..])),
    }
}

/// The place of the first byte that is no space.
fn word_start(line: &[u8]) -> Option<usize>
    ensures place { result ≡ position (λ b. not (b == 32)) line.now }
    ensures within { IfSome result (λ start. start < length line.now) }
{
    line.iter().position(|b| *b != b' ')
}

/// The place of the first space.
fn word_end(line: &[u8]) -> Option<usize>
    ensures place { result ≡ position (λ b. b == 32) line.now }
    ensures within { IfSome result (λ end. end < length line.now) }
{
    line.iter().position(|b| *b == b' ')
}
