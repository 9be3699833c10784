//! What is added to a store in a file: texts of types that the file doesn't have, and objects.

ghost use Rattle.std.specs.Prelude.{◌≡◌, ◌+◌, ◌≤◌, ◌++◌, ℕ, List, length, Some, IfErr, IfOk, IfNone, IfSome, OnOk, slice_get};
ghost use Rattle.durable_store.specs.Growth.{AreUnknown, HavePlaces};
ghost use Rattle.durable_store.specs.GrowthParts.{ArePlacesOf, IsGrowth, IsGrowthError};
ghost use Rattle.durable_store.specs.Names.{HaveNewNames};
ghost use Rattle.durable_store.specs.Recovered.{IsStrayError};

use crate::begun_types::declared_in;
use crate::open_error::OpenError;
use crate::taken_names::taken_name;
use journal::{JournalError, TypeText};
use object_types::accept_types;
use objects::{Object, new_objects};
use std::alloc::{AllocError, Global};
use store_text::ObjectLine;

// the most texts of types that a file has, since a place among them has 16 bits
const MOST_TEXTS: usize = 65_536;

/// What a file has: texts of types, and objects.
#[derive(Drop)]
pub(crate) struct Known {
    pub(crate) texts: Vec<TypeText>,
    pub(crate) objects: Vec<ObjectLine>,
}

/// What is added: the texts that the file doesn't have, objects with the places of their types among all texts, and
/// those objects as they are made.
#[derive(Drop)]
pub(crate) struct Growth {
    pub(crate) texts: Vec<TypeText>,
    pub(crate) lines: Vec<ObjectLine>,
    pub(crate) objects: Vec<Object>,
}

/// The texts that a file doesn't have, and the places of given texts among those that it has and these behind them.
#[derive(Drop)]
struct PlacedTexts {
    fresh: Vec<TypeText>,
    places: Vec<u16>,
}

/// What is added where a file has the known texts and objects: objects of these lines, whose places are those of the
/// given texts.
///
/// # Errors
///
/// `NameTaken` by the first line whose name an object has already; `Text` or `Untyped` by the first of the given texts
/// or lines, `NoMemory`, or `Journal` where the file would have too many texts.
pub(crate) fn growth_of(
    alloc: Global,
    known: &Known,
    texts: &[TypeText],
    lines: &[ObjectLine],
) -> Result<Growth, OpenError>
    ensures grown { IfOk result (IsGrowth known.now.texts.items texts.now lines.now) }
    ensures named { OnOk result (HaveNewNames known.now.objects.items lines.now) }
    ensures refused { IfErr result (IsGrowthError known.now.objects.items lines.now) }
{
    if let Some(x) = taken_name(alloc, &known.objects, lines)? {
        return Err(OpenError::NameTaken(x));
    }
    placed_growth(alloc, &known.texts, texts, lines)
}

/// The same of lines whose names aren't looked at.
///
/// # Errors
///
/// As of `growth_of`, but for `NameTaken`.
fn placed_growth(
    alloc: Global,
    known: &[TypeText],
    texts: &[TypeText],
    lines: &[ObjectLine],
) -> Result<Growth, OpenError>
    ensures growth { IfOk result (IsGrowth known.now texts.now lines.now) }
    ensures strays { IfErr result (λ e. IsStrayError e → ⊥) }
{
    let declared = declared_in(alloc, texts)?;
    let types = accept_types(alloc, &declared, lines)?;
    let objects = new_objects(alloc, &types)?;
    let placed = place_texts(alloc, known, texts)?;
    let lines = placed_lines(alloc, lines, &placed.places)?;
    Ok(Growth {
        texts: placed.fresh,
        lines,
        objects,
    })
}

/// The places of given texts.
///
/// # Errors
///
/// As `place_text`.
fn place_texts(
    alloc: Global,
    known: &[TypeText],
    texts: &[TypeText],
) -> Result<PlacedTexts, OpenError>
    ensures few { IfOk result (λ placed. length known.now + length placed.fresh.items ≤ 65536) }
    ensures unknown { IfOk result (λ placed. AreUnknown known.now placed.fresh.items) }
    ensures places { IfOk result (λ placed. HavePlaces texts.now (known.now ++ placed.fresh.items) placed.places.items) }
    ensures strays { IfErr result (λ e. IsStrayError e → ⊥) }
{
    if known.len() > MOST_TEXTS {
        return Err(OpenError::Journal(JournalError::Full));
    }
    let mut fresh = Vec::new(alloc);
    let mut places = Vec::new(alloc);
    for text in texts {
        let place = place_text(alloc, known, &mut fresh, text)?;
        places.push(place)?;
    }
    Ok(PlacedTexts { fresh, places })
}

/// The place of a text: among the known ones, or behind them among the fresh ones, of which it is the last where it
/// was none of them.
///
/// # Errors
///
/// `NoMemory`, or `Journal` where there would be too many texts.
fn place_text(
    alloc: Global,
    known: &[TypeText],
    fresh: &mut Vec<TypeText>,
    text: &TypeText,
) -> Result<u16, OpenError>
    requires few { length known.now + length fresh.old.items ≤ 65536 }
    requires unknown { AreUnknown known.now fresh.old.items }
    ensures few { OnOk result (length known.now + length fresh.new.items ≤ 65536) }
    ensures unknown { OnOk result (AreUnknown known.now fresh.new.items) }
    ensures behind { OnOk result ((more : List (List ℕ)) × (fresh.new.items ≡ fresh.old.items ++ more)) }
    ensures at { IfOk result (λ place. slice_get (known.now ++ fresh.new.items) place ≡ Some text.now) }
    ensures strays { IfErr result (λ e. IsStrayError e → ⊥) }
{
    if let Some(place) = place_of(known, text) {
        return short(place);
    }
    if let Some(place) = place_of(fresh, text) {
        return short(known.len() + place);
    }
    let place = short(known.len() + fresh.len())?;
    fresh.push(copy_of(alloc, text)?)?;
    Ok(place)
}

/// The place of this text among others, the first one.
fn place_of(texts: &[TypeText], text: &TypeText) -> Option<usize>
    ensures there { IfSome result (λ place. slice_get texts.now place ≡ Some text.now) }
    ensures none { IfNone result ((k : ℕ) → slice_get texts.now k ≡ Some text.now → ⊥) }
{
    for place in 0..texts.len() {
        if texts[place].as_bytes() == text.as_bytes() {
            return Some(place);
        }
    }
    None
}

/// A place in 16 bits.
///
/// # Errors
///
/// `Journal` where it is too large.
fn short(place: usize) -> Result<u16, OpenError>
    ensures exact { IfOk result (λ short. short ≡ place) }
    ensures strays { IfErr result (λ e. IsStrayError e → ⊥) }
{
    match u16::try_from(place) {
        Ok(short) => Ok(short),
        Err(_) => Err(OpenError::Journal(JournalError::Full)),
    }
}

/// An equal text.
fn copy_of(alloc: Global, text: &TypeText) -> Result<TypeText, AllocError>
    ensures { IfOk result (λ copied. copied ≡ text.now) }
{
    let bytes = Vec::from_slice(alloc, text.as_bytes())?;
    Ok(TypeText::new(bytes))
}

/// The lines of objects with other places in place of theirs.
///
/// # Errors
///
/// `Untyped` at the first line for which there is no place, or `NoMemory`.
fn placed_lines(
    alloc: Global,
    lines: &[ObjectLine],
    places: &[u16],
) -> Result<Vec<ObjectLine>, OpenError>
    ensures placed { IfOk result (λ placed. ArePlacesOf places.now lines.now placed.items) }
    ensures strays { IfErr result (λ e. IsStrayError e → ⊥) }
{
    let mut placed = Vec::new(alloc);
    for (x, line) in lines.iter().enumerate() {
        let Some(file) = places.get(usize::from(line.file)) else {
            return Err(OpenError::Untyped(x));
        };
        placed.push(ObjectLine {
            kind: line.kind,
            file: *file,
            name: line.name,
        })?;
    }
    Ok(placed)
}
