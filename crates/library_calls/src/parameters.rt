//! Parameters of families, as the families take them.

ghost use Rattle.std.specs.Prelude.{◌≡◌, ◌⊎◌, ◌<◌, ◌↔◌, map, filter_map, is_some, slice_index, EachIndex, IfErr, IfNone, IfOk, IfSome, IsTrue};
ghost use Rattle.std.specs.List.{list_all};
ghost use Rattle.line_text.specs.Text.{words_of};
ghost use Rattle.table_families.specs.Amounts.{AreAmounts};
ghost use Rattle.library_calls.specs.Families.{AreNames, name_of};

use crate::code::Code;
use std::alloc::{AllocError, Global};
use type_table::Name;

/// A cap and amounts, in fewer bits.
///
/// # Errors
///
/// `BadParameter` where they don't fit, which no good ones do, or `NoMemory`.
pub(crate) fn narrowed(alloc: Global, cap: u64, amounts: &[u64]) -> Result<(u16, Vec<u16>), Code>
    ensures same { IfOk result (λ narrow. (narrow.0 ≡ cap) × (narrow.1.items ≡ amounts.now)) }
    ensures refused { IfErr result (λ code. (code ≡ Code.NoMemory) ⊎ ((code ≡ Code.BadParameter) × (AreAmounts cap amounts.now → ⊥))) }
{
    if cap >= 65536 {
        return Err(Code::BadParameter);
    }
    if !are_small(amounts) {
        return Err(Code::BadParameter);
    }
    match copied(alloc, amounts) {
        Ok(narrow) => Ok((cap as u16, narrow)),
        Err(_) => Err(Code::NoMemory),
    }
}

/// Whether each number is below 65,536.
fn are_small(numbers: &[u64]) -> bool
    ensures { IsTrue result ↔ EachIndex numbers.now (λ k. slice_index numbers.now k < 65536) }
{
    numbers.iter().all(|number| *number < 65536)
}

/// The same numbers, in fewer bits.
fn copied(alloc: Global, numbers: &[u64]) -> Result<Vec<u16>, AllocError>
    requires { EachIndex numbers.now (λ k. slice_index numbers.now k < 65536) }
    ensures { IfOk result (λ narrow. narrow.items ≡ numbers.now) }
{
    let mut narrow = Vec::with_capacity(alloc, numbers.len())?;
    for number in numbers {
        narrow.push_reserved(*number as u16);
    }
    Ok(narrow)
}

/// A capacity, in fewer bits, where it fits.
pub(crate) fn capacity_of(capacity: u64) -> Option<u16>
    ensures same { IfSome result (λ narrow. narrow ≡ capacity) }
    ensures large { IfNone result (1023 < capacity) }
{
    if capacity < 65536 {
        Some(capacity as u16)
    } else {
        None
    }
}

/// The words of a text, each of which is a name.
///
/// # Errors
///
/// `BadParameter` where one isn't, or `NoMemory`.
pub(crate) fn names_of(alloc: Global, text: &[u8]) -> Result<Vec<Name>, Code>
    ensures names { IfOk result (λ names. (names.items ≡ words_of text.now) × AreNames (words_of text.now)) }
    ensures refused { IfErr result (λ code. (code ≡ Code.NoMemory) ⊎ ((code ≡ Code.BadParameter) × (AreNames (words_of text.now) → ⊥))) }
{
    let Ok(words) = words_of(alloc, text) else {
        return Err(Code::NoMemory);
    };
    if !are_names(&words) {
        return Err(Code::BadParameter);
    }
    match names_among(alloc, &words) {
        Ok(names) => Ok(names),
        Err(_) => Err(Code::NoMemory),
    }
}

/// The words of a text.
pub(crate) fn words_of<'a>(alloc: Global, text: &'a [u8]) -> Result<Vec<&'a [u8]>, AllocError>
    ensures { IfOk result (λ words. map (λ w. w.now) words.items ≡ words_of text.now) }
{
    let mut words = Vec::new(alloc);
    for word in text.split(|b| *b == b' ') {
        if !word.is_empty() {
            words.push(word)?;
        }
    }
    Ok(words)
}

fn are_names(words: &[&[u8]]) -> bool
    ensures { result ≡ list_all (λ word. is_some (name_of word.now)) words.now }
{
    words.iter().all(|word| Name::from_bytes(word).is_some())
}

fn names_among(alloc: Global, words: &[&[u8]]) -> Result<Vec<Name>, AllocError>
    ensures { IfOk result (λ names. names.items ≡ filter_map (λ word. name_of word.now) words.now) }
{
    words
        .iter()
        .filter_map(|word| Name::from_bytes(word))
        .collect(alloc)
}
