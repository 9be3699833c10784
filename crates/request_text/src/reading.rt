//! A line is read.

ghost use Rattle.std.specs.Prelude.{◌≡◌, drop, map, IfOk};
ghost use Rattle.std.specs.List.{list_all};
ghost use Rattle.request_text.specs.Requests.{asked_by, behind_key, calls_asked, objects_asked, file_words, is_ascii, tagged_of, untagged, words_between};

use crate::calls::{calls_said, objects_said};
use crate::fault::RequestFault;
use crate::line::request_of;
use crate::request::{Asked, AskedCall, ObjectWord};
use crate::shapes::is_keyed;
use std::alloc::{AllocError, Global};
use type_table::Name;

/// The most bytes of a line, without its LF.
pub const LONGEST_LINE: usize = 4_095;

/// What a line asks, without its LF.
///
/// # Errors
///
/// Memory was refused.
pub fn read_line(alloc: Global, line: &[u8]) -> Result<Asked, AllocError>
    ensures { IfOk result (λ asked. asked ≡ asked_by line.now) }
{
    if line.len() > LONGEST_LINE {
        return Ok(untagged(RequestFault::TooLong));
    }
    if !are_ascii(line) {
        return Ok(untagged(RequestFault::NotAscii));
    }
    let words = words_between(alloc, line)?;
    Ok(tagged_of(&words))
}

/// The words of a line behind its tag and its verb: of `extend`, the paths of its files.
///
/// # Errors
///
/// Memory was refused.
pub fn file_words(alloc: Global, line: &[u8]) -> Result<Vec<&[u8]>, AllocError>
    ensures { IfOk result (λ words. map (λ w. w.now) words.items ≡ file_words line.now) }
{
    let words = words_between(alloc, line)?;
    Vec::from_slice(alloc, behind_request(&words))
}

/// The calls behind the tag and the verb of a line, of `peek` and of `do`, where a key may stand before them.
///
/// # Errors
///
/// Memory was refused.
pub fn calls_asked(alloc: Global, line: &[u8]) -> Result<Vec<AskedCall>, AllocError>
    ensures { IfOk result (λ calls. calls.items ≡ calls_asked line.now) }
{
    let words = words_between(alloc, line)?;
    calls_said(alloc, behind_key(behind_request(&words)))
}

/// What comes behind the tag and the verb.
fn behind_request<'a, 'b>(words: &'a [&'b [u8]]) -> &'a [&'b [u8]]
    ensures { map (λ w. w.now) result.now ≡ drop 2 (map (λ w. w.now) words.now) }
{
    match words {
        [_tag, _verb, words @ ..] => words,
        _ => &[],
    }
}

/// What comes behind a key, where one stands in front.
fn behind_key<'a, 'b>(words: &'a [&'b [u8]]) -> &'a [&'b [u8]]
    ensures { map (λ w. w.now) result.now ≡ behind_key (map (λ w. w.now) words.now) }
{
    match words {
        [first, rest @ ..] if is_keyed(first) => rest,
        _ => words,
    }
}

/// The objects behind them, of `committed`.
///
/// # Errors
///
/// Memory was refused.
pub fn objects_asked(alloc: Global, line: &[u8]) -> Result<Vec<ObjectWord>, AllocError>
    ensures { IfOk result (λ objects. objects.items ≡ objects_asked line.now) }
{
    let words = words_between(alloc, line)?;
    objects_said(alloc, behind_request(&words))
}

/// What the words of a line ask.
fn tagged_of(words: &[&[u8]]) -> Asked
    ensures { result ≡ tagged_of (map (λ w. w.now) words.now) }
{
    match words {
        [tag, words @ ..] => match Name::from_bytes(tag) {
            Some(tag) => Asked {
                tag: Some(tag),
                request: request_of(words),
            },
            None => untagged(RequestFault::BadTag),
        },
        [] => untagged(RequestFault::BadTag),
    }
}

/// A line that has no tag.
fn untagged(fault: RequestFault) -> Asked
    ensures { result ≡ untagged fault }
{
    Asked {
        tag: None,
        request: Err(fault),
    }
}

/// Whether each byte is one of 32 to 126.
fn are_ascii(line: &[u8]) -> bool
    ensures { result ≡ list_all is_ascii line.now }
{
    line.iter().all(|b| is_ascii(*b))
}

fn is_ascii(b: u8) -> bool
    ensures { result ≡ is_ascii b }
{
    b' ' <= b && b <= b'~'
}

/// The words of a line, with one space between two.
fn words_between(alloc: Global, line: &[u8]) -> Result<Vec<&[u8]>, AllocError>
    ensures { IfOk result (λ words. map (λ w. w.now) words.items ≡ words_between line.now) }
{
    let mut words = Vec::new(alloc);
    for word in line.split(|b| *b == b' ') {
        words.push(word)?;
    }
    Ok(words)
}
