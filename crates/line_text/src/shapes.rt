ghost use Rattle.std.specs.Prelude.{◌≡◌, map};
ghost use Rattle.line_text.specs.Shapes.{word, exactly, number_at, name_at, kind_at, table_kind_at, is_key};

use crate::fault::FaultKind;
use decimals::number_of;
use type_table::{Kind, Name, TableKind};

/// Whether the first word of a line is this keyword.
#[tactic(auto, unfolding(crate::specs::Shapes::is_key))]
pub fn is_key(words: &[&[u8]], key: &str) -> bool
    ensures { result ≡ is_key (map (λ w. w.now) words.now) key.now }
{
    word(words, 0) == key.as_bytes()
}

/// That a line has this many words, its keyword among them; else `UnknownWord`.
#[tactic(auto, unfolding(crate::specs::Shapes::exactly))]
pub fn exactly(words: &[&[u8]], count: usize) -> Result<(), FaultKind>
    ensures { result ≡ exactly (map (λ w. w.now) words.now) count }
{
    if words.len() == count {
        Ok(())
    } else {
        Err(FaultKind::UnknownWord)
    }
}

/// The number at a place of a line, where the keyword is at place 0; else `BadNumber`.
#[tactic(auto, unfolding(crate::specs::Shapes::number_at))]
pub fn number_at(words: &[&[u8]], place: usize) -> Result<u32, FaultKind>
    ensures { result ≡ number_at (map (λ w. w.now) words.now) place }
{
    match number_of(word(words, place)) {
        Some(number) => Ok(number),
        None => Err(FaultKind::BadNumber),
    }
}

/// The name at a place of a line; else `UnknownWord`.
#[tactic(auto, unfolding(crate::specs::Shapes::name_at))]
pub fn name_at(words: &[&[u8]], place: usize) -> Result<Name, FaultKind>
    ensures { result ≡ name_at (map (λ w. w.now) words.now) place }
{
    match Name::from_bytes(word(words, place)) {
        Some(name) => Ok(name),
        None => Err(FaultKind::UnknownWord),
    }
}

/// The recovery kind at a place of a line: `undo`, `intentions` or `escrow`; else `UnknownWord`.
#[tactic(auto, unfolding(crate::specs::Shapes::kind_at))]
pub fn kind_at(words: &[&[u8]], place: usize) -> Result<Kind, FaultKind>
    ensures { result ≡ kind_at (map (λ w. w.now) words.now) place }
{
    Kind::of_word(word(words, place)).ok_or(FaultKind::UnknownWord)
}

/// The recovery kind with a conflict table at a place of a line: `undo` or `intentions`; else
/// `UnknownWord`.
#[tactic(auto, unfolding(crate::specs::Shapes::table_kind_at))]
pub fn table_kind_at(words: &[&[u8]], place: usize) -> Result<TableKind, FaultKind>
    ensures { result ≡ table_kind_at (map (λ w. w.now) words.now) place }
{
    TableKind::of_word(word(words, place)).ok_or(FaultKind::UnknownWord)
}

/// The word at a place, which is empty where the line has fewer.
pub fn word<'a>(words: &[&'a [u8]], place: usize) -> &'a [u8]
    ensures { result.now ≡ word (map (λ w. w.now) words.now) place }
{
    match words.get(place) {
        Some(word) => *word,
        None => &[],
    }
}
