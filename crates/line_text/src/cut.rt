//! The first line of a text, tested for its form and cut into words.

ghost use Rattle.std.specs.Prelude.{◌≡◌, ◌∷◌, [], ◌++◌, ◌<◌, ◌≤◌, ◌&&◌, nat_le, length, map, filter, position, not, MatchResult, IfSome, IfOk, OnOk};
ghost use Rattle.std.specs.List.{list_all, AllByRecursion};
ghost use Rattle.line_text.specs.Text.{has_bytes, seen};
ghost use Rattle.line_text.specs.LineTests.{form_fault, is_text_byte};
ghost use Rattle.line_text.specs.Steps.{IsCut, IsRefusedFirst};

use crate::fault::FaultKind;
use crate::line::{Line, is_comment, split_words, take_line};
use std::alloc::AllocError;
use type_table::LONGEST_LINE;

/// Puts the words of a text's first line in place of those in `words`, and gives what comes after the
/// line; else the first of tests 1 to 3 that refuses it. There has to be a line.
pub fn cut_line<'a>(text: &'a [u8], words: &mut Vec<&'a [u8]>) -> Result<&'a [u8], FaultKind>
    requires { 0 < length text.now }
    ensures { MatchResult result
        (λ behind. IsCut text.now (map (λ w. w.now) words.new.items) behind.now)
        (λ kind. IsRefusedFirst text.now kind) }
{
    match cut_plain_line(text, words) {
        Ok(Some(behind)) => Ok(behind),
        Ok(None) => cut_any_line(text, words),
        Err(_) => Err(FaultKind::NoMemory),
    }
}

/// The same where the line is no comment and passes tests 1 to 3, in one pass over its bytes; `None`
/// where it may be another.
fn cut_plain_line<'a>(
    text: &'a [u8],
    words: &mut Vec<&'a [u8]>,
) -> Result<Option<&'a [u8]>, AllocError>
    ensures { IfOk result (λ cut. IfSome cut
        (λ behind. IsCut text.now (map (λ w. w.now) words.new.items) behind.now)) }
{
    words.clear();
    if is_comment(text) {
        return Ok(None);
    }
    let mut rest = text;
    while words.len() <= LONGEST_LINE {
        let Some(taken) = take_word(rest) else {
            return Ok(None);
        };
        push_word(words, taken.word)?;
        match taken.stop {
            b' ' => rest = taken.behind,
            b'\n' if text.len() - taken.behind.len() <= LONGEST_LINE + 1 => {
                return Ok(Some(taken.behind));
            }
            _ => return Ok(None),
        }
    }
    Ok(None)
}

/// A word that was taken from the front of a text.
#[derive(Clone, Copy)]
struct TakenWord<'a> {
    word: &'a [u8],
    /// The first byte that a word can't have.
    stop: u8,
    /// What comes after that byte.
    behind: &'a [u8],
}

/// The bytes of a word at the front of a text, of which there may be none.
#[inline]
fn take_word(text: &[u8]) -> Option<TakenWord<'_>>
    ensures cut { IfSome result (λ taken. text.now ≡ taken.word.now ++ taken.stop ∷ taken.behind.now) }
    ensures word { IfSome result (λ taken. AllByRecursion (λ b. (33 ≤ b) × (b ≤ 126)) taken.word.now) }
{
    let end = word_end(text)?;
    Some(TakenWord {
        word: &text[..end],
        stop: text[end],
        behind: &text[end + 1..],
    })
}

/// The place of the first byte that a word can't have.
fn word_end(text: &[u8]) -> Option<usize>
    ensures place { result ≡ position (λ b. not (nat_le 33 b && nat_le b 126)) text.now }
    ensures within { IfSome result (λ end. end < length text.now) }
{
    text.iter().position(|b| !is_word_byte(*b))
}

fn is_word_byte(b: u8) -> bool
    ensures { result ≡ (nat_le 33 b && nat_le b 126) }
{
    b'!' <= b && b <= b'~'
}

/// Puts a word after the others, if it has bytes.
fn push_word<'a>(words: &mut Vec<&'a [u8]>, word: &'a [u8]) -> Result<(), AllocError>
    ensures { OnOk result (map (λ w. w.now) words.new.items
        ≡ map (λ w. w.now) words.old.items ++ filter has_bytes (word.now ∷ [])) }
{
    if !word.is_empty() {
        words.push(word)?;
    }
    Ok(())
}

/// The same as `cut_line`, one thing after another.
#[cold]
#[inline(never)]
fn cut_any_line<'a>(text: &'a [u8], words: &mut Vec<&'a [u8]>) -> Result<&'a [u8], FaultKind>
    requires { 0 < length text.now }
    ensures { MatchResult result
        (λ behind. IsCut text.now (map (λ w. w.now) words.new.items) behind.now)
        (λ kind. IsRefusedFirst text.now kind) }
{
    match take_line(text) {
        Some((line, behind)) => {
            if let Some(kind) = form_fault(line) {
                return Err(kind);
            }
            split_words(line.bytes, words)?;
            Ok(behind)
        }
        None => unreachable!(),
    }
}

/// The first of tests 1 to 3 that refuses a line.
fn form_fault(line: Line<'_>) -> Option<FaultKind>
    ensures { result ≡ form_fault (seen line.entry) }
{
    if !is_text(line.bytes) {
        Some(FaultKind::NotAscii)
    } else if line.bytes.len() > LONGEST_LINE {
        Some(FaultKind::LineTooLong)
    } else if !line.is_ended {
        Some(FaultKind::Unterminated)
    } else {
        None
    }
}

fn is_text(bytes: &[u8]) -> bool
    ensures { result ≡ list_all is_text_byte bytes.now }
{
    bytes.iter().all(|b| b' ' <= *b && *b <= b'~')
}
