//! What the words of a request are to be.

ghost use Rattle.std.specs.Prelude.{◌≡◌, map};
ghost use Rattle.request_text.specs.Shapes.{word_at, has_words, has_words_from, number_at, transaction_at, request_name_at, asked_name_at, key_at, key_in_front, key_word, object_word, object_at, is_keyed, is_verb};

use crate::fault::RequestFault;
use crate::number::{number_of, transaction_of};
use crate::request::{ObjectWord, TransactionName};
use object_name::ObjectName;
use transaction_key::TransactionKey;
use type_table::Name;

/// Whether the first word is this verb.
#[tactic(auto, unfolding(crate::specs::Shapes::is_verb))]
pub fn is_verb(words: &[&[u8]], verb: &str) -> bool
    ensures { result ≡ is_verb (map (λ w. w.now) words.now) verb.now }
{
    word(words, 0) == verb.as_bytes()
}

/// That there are this many words, the verb among them; else `BadWords`.
#[tactic(auto, unfolding(crate::specs::Shapes::has_words))]
pub fn exactly(words: &[&[u8]], count: usize) -> Result<(), RequestFault>
    ensures { result ≡ has_words (map (λ w. w.now) words.now) count }
{
    if words.len() == count {
        Ok(())
    } else {
        Err(RequestFault::BadWords)
    }
}

/// That there are at least this many words, the verb among them; else `BadWords`.
#[tactic(auto, unfolding(crate::specs::Shapes::has_words_from))]
pub fn at_least(words: &[&[u8]], count: usize) -> Result<(), RequestFault>
    ensures { result ≡ has_words_from (map (λ w. w.now) words.now) count }
{
    if words.len() >= count {
        Ok(())
    } else {
        Err(RequestFault::BadWords)
    }
}

/// The name at a position, where the verb is at position 0; else `BadWords`.
#[tactic(auto, unfolding(crate::specs::Shapes::request_name_at))]
pub fn name_at(words: &[&[u8]], position: usize) -> Result<Name, RequestFault>
    ensures { result ≡ request_name_at (map (λ w. w.now) words.now) position }
{
    match Name::from_bytes(word(words, position)) {
        Some(name) => Ok(name),
        None => Err(RequestFault::BadWords),
    }
}

/// The name of an object at a position; else `BadWords`.
#[tactic(auto, unfolding(crate::specs::Shapes::asked_name_at))]
pub fn asked_name_at(words: &[&[u8]], position: usize) -> Result<ObjectName, RequestFault>
    ensures { result ≡ asked_name_at (map (λ w. w.now) words.now) position }
{
    match ObjectName::from_bytes(word(words, position)) {
        Some(name) => Ok(name),
        None => Err(RequestFault::BadWords),
    }
}

/// The key at a position; else `BadWords`.
#[tactic(auto, unfolding(crate::specs::Shapes::key_at))]
pub fn key_at(words: &[&[u8]], position: usize) -> Result<TransactionKey, RequestFault>
    ensures { result ≡ key_at (map (λ w. w.now) words.now) position }
{
    key_word(word(words, position))
}

/// The key behind `=` in the second word; else `BadWords`.
#[tactic(auto, unfolding(crate::specs::Shapes::key_in_front))]
pub fn key_in_front(words: &[&[u8]]) -> Result<TransactionKey, RequestFault>
    ensures { result ≡ key_in_front (map (λ w. w.now) words.now) }
{
    match word(words, 1) {
        [b'=', key @ ..] => key_word(key),
        _ => Err(RequestFault::BadWords),
    }
}

/// The key that a word is; else `BadWords`.
fn key_word(word: &[u8]) -> Result<TransactionKey, RequestFault>
    ensures { result ≡ key_word word.now }
{
    match TransactionKey::from_bytes(word) {
        Some(key) => Ok(key),
        None => Err(RequestFault::BadWords),
    }
}

/// Whether a word begins with `=`, as a key in front of calls does.
pub fn is_keyed(word: &[u8]) -> bool
    ensures { result ≡ is_keyed word.now }
{
    matches!(word, [b'=', ..])
}

/// The object at a position, a number or `@` and a name; else `BadNumber`.
#[tactic(auto, unfolding(crate::specs::Shapes::object_at))]
pub fn object_at(words: &[&[u8]], position: usize) -> Result<ObjectWord, RequestFault>
    ensures { result ≡ object_at (map (λ w. w.now) words.now) position }
{
    object_word(word(words, position))
}

/// The object that a word says.
pub fn object_word(word: &[u8]) -> Result<ObjectWord, RequestFault>
    ensures { result ≡ object_word word.now }
{
    match word {
        [b'@', name @ ..] => match ObjectName::from_bytes(name) {
            Some(name) => Ok(ObjectWord::Name { name }),
            None => Err(RequestFault::BadNumber),
        },
        digits => match number_of(digits) {
            Some(x) => Ok(ObjectWord::Number { x }),
            None => Err(RequestFault::BadNumber),
        },
    }
}

/// The number at a position; else `BadNumber`.
#[tactic(auto, unfolding(crate::specs::Shapes::number_at))]
pub fn number_at(words: &[&[u8]], position: usize) -> Result<u32, RequestFault>
    ensures { result ≡ number_at (map (λ w. w.now) words.now) position }
{
    match number_of(word(words, position)) {
        Some(number) => Ok(number),
        None => Err(RequestFault::BadNumber),
    }
}

/// The transaction at a position; else `BadNumber`.
#[tactic(auto, unfolding(crate::specs::Shapes::transaction_at))]
pub fn transaction_at(words: &[&[u8]], position: usize) -> Result<TransactionName, RequestFault>
    ensures { result ≡ transaction_at (map (λ w. w.now) words.now) position }
{
    match transaction_of(word(words, position)) {
        Some(t) => Ok(t),
        None => Err(RequestFault::BadNumber),
    }
}

/// The word at a position, which is empty where there are fewer.
pub fn word<'a>(words: &[&'a [u8]], position: usize) -> &'a [u8]
    ensures { result.now ≡ word_at (map (λ w. w.now) words.now) position }
{
    match words.get(position) {
        Some(word) => *word,
        None => &[],
    }
}
