ghost use Rattle.std.specs.Prelude.{◌≡◌, ◌==◌, ◌<◌, [], ◌∷◌, length, map, position, MatchOption, IfSome, OnOk};
ghost use Rattle.line_text.specs.Text.{lines_of, content_of, is_comment, seen};

use std::alloc::AllocError;

/// A line of a text, without the LF that may end it.
#[derive(Clone, Copy, Debug)]
pub struct Line<'a> {
    pub bytes: &'a [u8],
    /// Whether a LF ends it.
    pub is_ended: bool,
}

/// The first line of a text and what comes after it.
pub fn take_line(text: &[u8]) -> Option<(Line<'_>, &[u8])>
    ensures lines { MatchOption result
        (lines_of text.now ≡ [])
        (λ taken. lines_of text.now ≡ seen taken.0 ∷ lines_of taken.1.now) }
    ensures shorter { IfSome result (λ taken. length taken.1.now < length text.now) }
{
    if text.is_empty() {
        return None;
    }
    match first_line_feed(text) {
        Some(end) => {
            let line = Line {
                bytes: &text[..end],
                is_ended: true,
            };
            Some((line, &text[end + 1..]))
        }
        None => {
            let line = Line {
                bytes: text,
                is_ended: false,
            };
            Some((line, &text[text.len()..]))
        }
    }
}

/// The place of the first LF.
fn first_line_feed(text: &[u8]) -> Option<usize>
    ensures place { result ≡ position (λ b. b == 10) text.now }
    ensures within { IfSome result (λ end. end < length text.now) }
{
    text.iter().position(|b| *b == b'\n')
}

/// Puts the words of a line in place of those in `words`; a comment has none.
pub fn split_words<'a>(bytes: &'a [u8], words: &mut Vec<&'a [u8]>) -> Result<(), AllocError>
    ensures { OnOk result (map (λ w. w.now) words.new.items ≡ content_of bytes.now) }
{
    words.clear();
    if is_comment(bytes) {
        return Ok(());
    }
    for word in bytes.split(|b| *b == b' ') {
        if !word.is_empty() {
            words.push(word)?;
        }
    }
    Ok(())
}

pub fn is_comment(bytes: &[u8]) -> bool
    ensures { result ≡ is_comment bytes.now }
{
    match bytes {
        [first, ..] => *first == b'#',
        [] => false,
    }
}
