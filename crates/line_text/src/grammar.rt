ghost use Rattle.std.specs.Prelude.{◌≡◌, ◌<◌, ◌^◌, [], ◌∷◌, ◌++◌, List, length, map, IfSome, OnOk, MatchOption};
ghost use Rattle.std.specs.List.{list_any};
ghost use Rattle.line_text.specs.Rules.{Rules, IsCounted};
ghost use Rattle.line_text.specs.Accepted.{HasPassed};
ghost use Rattle.line_text.specs.Plain.{TakesMore, KeepsPlainly};

use crate::fault::FaultKind;
use crate::section::Section;
use std::alloc::{AllocError, Global};

/// A grammar of lines: what the words of a line say, how the items of a text are kept, and what is
/// its own of the tests of a line.
///
/// A method that judges an item is handed `before`, the items before it in the text, or `counts`, how
/// many of them are of each rank. The ranks of `before` never fall, so a grammar finds what it needs
/// at a known place or in the counts, and no method has to look at all items.
pub trait Grammar {
    /// What a line says that isn't blank and no comment.
    type Item: Copy;

    /// The items of the lines that were read: a list, or what takes less room.
    type Kept: Drop;

    /// The grammar as contracts see it.
    ghost rules: { Self → Rules Self.Item };

    /// The items that are kept, in order.
    ghost kept: { Self.Kept → List Self.Item };

    /// What is kept before the first line.
    fn nothing(&self, alloc: Global) -> Self::Kept
        ensures { kept result ≡ [] };

    /// Keeps an item that passed its tests after those before it. There are never so many items that a
    /// number can't count them.
    fn keep(&self, before: &mut Self::Kept, item: Self::Item) -> Result<(), AllocError>
        requires { HasPassed (rules self.now) (kept before.old) item }
        ensures items { OnOk result (kept before.new ≡ kept before.old ++ item ∷ []) }
        ensures few { OnOk result (length (kept before.new) < 2 ^ 64) };

    /// What the words of a line say: `UnknownWord` or `BadNumber` where they say nothing.
    fn item(&self, words: &[&[u8]]) -> Result<Self::Item, FaultKind>
        requires { 0 < length words.now }
        ensures { result ≡ (rules self.now).item_of (map (λ w. w.now) words.now) };

    /// Keeps what a text's first line says, where it is a plain line of the section of this rank, with one
    /// space between two words and none elsewhere, whose numbers are in range, and gives what comes after it.
    /// `None` says nothing of the line: nothing was kept, and the line is read word by word.
    fn keep_plain<'a>(
        &self,
        _before: &mut Self::Kept,
        _rank: usize,
        _text: &'a [u8],
    ) -> Option<&'a [u8]>
        requires { TakesMore (rules self.now) (kept _before.old) _rank }
        ensures items { MatchOption result
            (kept _before.new ≡ kept _before.old)
            (λ behind. KeepsPlainly (rules self.now) _rank _text.now behind.now (kept _before.old) (kept _before.new)) }
        ensures few { IfSome result (λ behind. length (kept _before.new) < 2 ^ 64) }
    {
        None
    }

    /// The sections by rank. The last is that of `end`.
    fn sections(&self) -> &[Section]
        ensures value { result.now ≡ (rules self.now).sections }
        ensures some { 0 < length result.now };

    /// The rank of the section to which an item's line belongs.
    fn rank(&self, item: Self::Item) -> usize
        ensures value { result ≡ (rules self.now).rank_of item }
        ensures known { result < length (rules self.now).sections };

    /// Whether a line of its own section must come before the item and doesn't.
    fn misses(&self, before: &Self::Kept, counts: &[usize], item: Self::Item) -> bool
        requires { IsCounted (rules self.now) (kept before.now) counts.now }
        ensures { result ≡ (rules self.now).misses (kept before.now) item };

    /// Whether the item's numbers are in range.
    fn is_in_range(&self, before: &Self::Kept, counts: &[usize], item: Self::Item) -> bool
        requires { IsCounted (rules self.now) (kept before.now) counts.now }
        ensures { result ≡ (rules self.now).is_in_range (kept before.now) item };

    /// What the item is greater by than the one before it, where its section ascends.
    fn key(&self, item: Self::Item) -> Option<(u32, u32)>
        ensures { result ≡ (rules self.now).key_of item };

    /// Whether an item before it is one that may not come twice. For an item that may it answers
    /// `false` at once.
    fn has_twin(&self, before: &Self::Kept, item: Self::Item) -> bool
        ensures { result ≡ list_any ((rules self.now).is_twin item) (kept before.now) };

    /// The fault of an item that has a twin before it.
    fn twin_fault(&self, item: Self::Item) -> FaultKind
        ensures { result ≡ (rules self.now).twin_fault item };
}
