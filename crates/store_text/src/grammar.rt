//! The grammar of a text about a store's objects: what a line says, and its tests after the lines
//! before it.

ghost use Rattle.std.specs.Prelude.{◌≡◌, map, IfSome};
ghost use Rattle.store_text.specs.Body.{store_rules, line_of, size_of_words, max_of_words, object_of_words, nameless_of_words, named_of_words, object_name_at, end_of_words};
ghost use Rattle.store_text.specs.Kept.{kept_store_lines};
ghost use Rattle.store_text.specs.Size.{IsSize};

use crate::entries::Entries;
use crate::kept::KeptParts;
use crate::line::{Line, ObjectLine};
use crate::sections::Sections;
use crate::size::MOST_SIZE;
use line_text::{FaultKind, Grammar, Section, exactly, is_key, kind_at, number_at, word};
use object_name::ObjectName;
use std::alloc::{AllocError, Global};
use type_table::MOST_EVENTS;

// The ranks of the sections, which are their places among them.
const SIZE_RANK: usize = 0;

const MAX_RANK: usize = 1;

const OBJECT_RANK: usize = 2;

const ENTRY_RANK: usize = 3;

const END_RANK: usize = 4;

/// The grammar of a text with these entries, by what it says of the number of its objects.
#[derive(Clone, Copy)]
pub struct StoreGrammar<E> {
    entries: E,
    sections: Sections,
}

impl<E: Copy> StoreGrammar<E> {
    /// The number is one from 1 to 65,536, as `text_size` finds it in the text.
    pub fn new(entries: E, size: Option<u32>) -> StoreGrammar<E>
        requires { IfSome size IsSize }
        ensures entries { result.entries ≡ entries }
        ensures size { result.sections.size ≡ size }
    {
        StoreGrammar {
            entries,
            sections: Sections::new(size),
        }
    }
}

impl<E: Entries> Grammar for StoreGrammar<E> {
    type Item = Line<E::Entry>;

    type Kept = KeptParts<E::Kept>;

    ghost rules = { λ g. store_rules (E.body g.entries) g.sections.size };

    ghost kept = { λ kept. kept_store_lines E.said kept };

    fn nothing(&self, alloc: Global) -> KeptParts<E::Kept> {
        KeptParts::new(alloc, self.entries.nothing(alloc))
    }

    fn keep(
        &self,
        before: &mut KeptParts<E::Kept>,
        item: Line<E::Entry>,
    ) -> Result<(), AllocError> {
        self.entries.are_few(&before.entries);
        match item {
            Line::Objects(size) => before.size = Some(size),
            Line::Max(most) => before.max = Some(most),
            Line::Object { kind, file, name } => {
                let file = file as u16;
                before.objects.push(ObjectLine { kind, file, name })?;
            }
            Line::Entry(entry) => {
                self.entries
                    .keep(&mut before.entries, self.sections.objects, entry)?;
            }
            Line::End => before.has_ended = true,
        }
        Ok(())
    }

    #[tactic(auto, unfolding(crate::specs::Body::line_of))]
    fn item(&self, words: &[&[u8]]) -> Result<Line<E::Entry>, FaultKind> {
        if is_key(words, "objects") && self.sections.size.is_some() {
            size_of_words(words)
        } else if self.entries.has_max() && is_key(words, "max") {
            max_of_words(words)
        } else if is_key(words, "object") {
            object_of_words(words, self.sections.size)
        } else if is_key(words, "end") {
            end_of_words(words)
        } else {
            let entry = self.entries.entry(words)?;
            Ok(Line::Entry(entry))
        }
    }

    #[inline(always)]
    fn keep_plain<'a>(
        &self,
        before: &mut KeptParts<E::Kept>,
        rank: usize,
        text: &'a [u8],
    ) -> Option<&'a [u8]> {
        if rank != ENTRY_RANK {
            return None;
        }
        let behind = self
            .entries
            .keep_plain(&mut before.entries, self.sections.objects, text)?;
        self.entries.are_few(&before.entries);
        Some(behind)
    }

    fn sections(&self) -> &[Section] {
        if self.entries.has_max() {
            &self.sections.with_max
        } else {
            &self.sections.without_max
        }
    }

    fn rank(&self, item: Line<E::Entry>) -> usize {
        match item {
            Line::Objects(_) => SIZE_RANK,
            Line::Max(_) => MAX_RANK,
            Line::Object { .. } => OBJECT_RANK,
            Line::Entry(_) => ENTRY_RANK,
            Line::End => END_RANK,
        }
    }

    fn misses(&self, _before: &KeptParts<E::Kept>, counts: &[usize], item: Line<E::Entry>) -> bool {
        match item {
            Line::Entry(entry) => self.entries.wants_another(entry) && counts[ENTRY_RANK] == 0,
            _ => false,
        }
    }

    fn is_in_range(
        &self,
        _before: &KeptParts<E::Kept>,
        _counts: &[usize],
        item: Line<E::Entry>,
    ) -> bool {
        match item {
            Line::Objects(size) => 1 <= size && size <= MOST_SIZE,
            Line::Max(most) => 2 <= most && most <= MOST_EVENTS,
            Line::Object { file, .. } => file < self.sections.objects,
            Line::Entry(entry) => self.entries.is_in_range(self.sections.objects, entry),
            Line::End => true,
        }
    }

    fn key(&self, _item: Line<E::Entry>) -> Option<(u32, u32)> {
        None
    }

    fn has_twin(&self, before: &KeptParts<E::Kept>, item: Line<E::Entry>) -> bool {
        match item {
            Line::Object { name, .. } => before.objects.have_name(name),
            _ => false,
        }
    }

    fn twin_fault(&self, _item: Line<E::Entry>) -> FaultKind {
        FaultKind::TwiceName
    }
}

#[tactic(auto, unfolding(crate::specs::Body::size_of_words))]
fn size_of_words<Entry>(words: &[&[u8]]) -> Result<Line<Entry>, FaultKind>
    ensures { result ≡ size_of_words (map (λ w. w.now) words.now) }
{
    exactly(words, 2)?;
    let size = number_at(words, 1)?;
    Ok(Line::Objects(size))
}

#[tactic(auto, unfolding(crate::specs::Body::max_of_words))]
fn max_of_words<Entry>(words: &[&[u8]]) -> Result<Line<Entry>, FaultKind>
    ensures { result ≡ max_of_words (map (λ w. w.now) words.now) }
{
    exactly(words, 2)?;
    let most = number_at(words, 1)?;
    Ok(Line::Max(most))
}

#[tactic(auto, unfolding(crate::specs::Body::object_of_words))]
fn object_of_words<Entry>(words: &[&[u8]], size: Option<u32>) -> Result<Line<Entry>, FaultKind>
    ensures { result ≡ object_of_words size (map (λ w. w.now) words.now) }
{
    if size.is_some() && words.len() == 4 {
        named_of_words(words)
    } else {
        nameless_of_words(words)
    }
}

#[tactic(auto, unfolding(crate::specs::Body::nameless_of_words))]
fn nameless_of_words<Entry>(words: &[&[u8]]) -> Result<Line<Entry>, FaultKind>
    ensures { result ≡ nameless_of_words (map (λ w. w.now) words.now) }
{
    exactly(words, 3)?;
    let kind = kind_at(words, 1)?;
    let file = number_at(words, 2)?;
    Ok(Line::Object {
        kind,
        file,
        name: None,
    })
}

#[tactic(auto, unfolding(crate::specs::Body::named_of_words))]
fn named_of_words<Entry>(words: &[&[u8]]) -> Result<Line<Entry>, FaultKind>
    ensures { result ≡ named_of_words (map (λ w. w.now) words.now) }
{
    let name = object_name_at(words, 3)?;
    let kind = kind_at(words, 1)?;
    let file = number_at(words, 2)?;
    Ok(Line::Object {
        kind,
        file,
        name: Some(name),
    })
}

/// The name of an object at a place of a line; else `UnknownWord`.
#[tactic(auto, unfolding(crate::specs::Body::object_name_at))]
fn object_name_at(words: &[&[u8]], place: usize) -> Result<ObjectName, FaultKind>
    ensures { result ≡ object_name_at (map (λ w. w.now) words.now) place }
{
    match ObjectName::from_bytes(word(words, place)) {
        Some(name) => Ok(name),
        None => Err(FaultKind::UnknownWord),
    }
}

#[tactic(auto, unfolding(crate::specs::Body::end_of_words))]
fn end_of_words<Entry>(words: &[&[u8]]) -> Result<Line<Entry>, FaultKind>
    ensures { result ≡ end_of_words (map (λ w. w.now) words.now) }
{
    exactly(words, 1)?;
    Ok(Line::End)
}
