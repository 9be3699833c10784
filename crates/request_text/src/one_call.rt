//! A line that asks for one call alone, which is read without memory.

ghost use Rattle.std.specs.Prelude.{◌≡◌, ◌==◌, ◌<◌, [], ◌∷◌, length, position, IfSome, MatchOption};
ghost use Rattle.request_text.specs.Requests.{calls_asked, file_words, words_between};

use crate::request::AskedCall;
use crate::shapes::{is_keyed, object_word};
use type_table::Name;

/// The call of a line, where it asks for one alone and without a key.
pub fn call_asked(line: &[u8]) -> Option<AskedCall>
    ensures { IfSome result (λ call. calls_asked line.now ≡ call ∷ []) }
{
    let (x, name) = only_pair(line)?;
    if is_keyed(x) {
        return None;
    }
    let (Ok(x), Some(call)) = (object_word(x), Name::from_bytes(name)) else {
        return None;
    };
    Some(AskedCall { x, call })
}

/// The two words behind the tag and the verb, where no others follow.
fn only_pair(line: &[u8]) -> Option<(&[u8], &[u8])>
    ensures { IfSome result (λ pair. file_words line.now ≡ pair.0.now ∷ pair.1.now ∷ []) }
{
    let (_tag, request) = cut(line)?;
    let (_verb, calls) = cut(request)?;
    let (x, name) = cut(calls)?;
    match cut(name) {
        Some(_) => None,
        None => Some((x, name)),
    }
}

/// The first word of a text, and what follows the space behind it; none where it is one word.
fn cut(text: &[u8]) -> Option<(&[u8], &[u8])>
    ensures { MatchOption result (words_between text.now ≡ text.now ∷ []) (λ parts. words_between text.now ≡ parts.0.now ∷ words_between parts.1.now) }
{
    match space_in(text) {
        Some(at) => Some((&text[..at], &text[at + 1..])),
        None => None,
    }
}

/// The place of the first space.
fn space_in(text: &[u8]) -> Option<usize>
    ensures place { result ≡ position (λ b. b == 32) text.now }
    ensures within { IfSome result (λ at. at < length text.now) }
{
    text.iter().position(|b| *b == b' ')
}
