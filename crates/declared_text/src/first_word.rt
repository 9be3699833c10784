//! By which grammar a text is read.

ghost use Rattle.std.specs.Prelude.{◌≡◌, [], MatchOption};
ghost use Rattle.line_text.specs.Text.{is_comment, content_of};
ghost use Rattle.declared_text.specs.Declared.{IsFirst, is_of_number, words_in};

/// Whether the first word of a text is `number`, so that it is read as one. It takes no memory.
pub fn is_of_number(text: &[u8]) -> bool
    ensures { result ≡ is_of_number text.now }
{
    match first_word(text) {
        Some(word) => word == b"number".as_slice(),
        None => false,
    }
}

/// The first word of a text, where it has one.
fn first_word(text: &[u8]) -> Option<&[u8]>
    ensures { MatchOption result (words_in text.now ≡ []) (λ word. IsFirst (words_in text.now) word.now) }
{
    for line in text.split(|b| *b == b'\n') {
        if let Some(word) = first_in(line) {
            return Some(word);
        }
    }
    None
}

/// The first word of a line, where it has one; a comment has none.
fn first_in(line: &[u8]) -> Option<&[u8]>
    ensures { MatchOption result (content_of line.now ≡ []) (λ word. IsFirst (content_of line.now) word.now) }
{
    if is_comment(line) {
        return None;
    }
    for word in line.split(|b| *b == b' ') {
        if !word.is_empty() {
            return Some(word);
        }
    }
    None
}

fn is_comment(line: &[u8]) -> bool
    ensures { result ≡ is_comment line.now }
{
    match line {
        [first, ..] => *first == b'#',
        [] => false,
    }
}
