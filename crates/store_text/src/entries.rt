ghost use Rattle.std.specs.Prelude.{◌≡◌, ◌<◌, ◌^◌, ◌∷◌, ◌++◌, [], true, List, map, length, MatchOption, OnOk};
ghost use Rattle.store_text.specs.Body.{Body};
ghost use Rattle.store_text.specs.PlainEntry.{KeepsEntry};

use line_text::FaultKind;
use std::alloc::{AllocError, Global};

/// What a text about a store's objects has of its own: the lines between those of the objects and
/// `end`.
pub trait Entries {
    /// What such a line says.
    type Entry: Copy;

    /// The entries of the lines that were read: a list, or what takes less room.
    type Kept: Drop;

    /// The text's own as contracts see it.
    ghost body: { Self → Body Self.Entry };

    /// The entries that are kept, in order.
    ghost said: { Self.Kept → List Self.Entry };

    /// Whether the text begins with a `max` line.
    fn has_max(&self) -> bool
        ensures { result ≡ (body self.now).has_max };

    /// What the words of a line say: `UnknownWord` or `BadNumber` where they are no entry.
    fn entry(&self, words: &[&[u8]]) -> Result<Self::Entry, FaultKind>
        ensures { result ≡ (body self.now).entry_of (map (λ w. w.now) words.now) };

    /// What is kept before the first entry.
    fn nothing(&self, alloc: Global) -> Self::Kept
        ensures { said result ≡ [] };

    /// Keeps an entry after those before it, in a text that may have so many objects.
    fn keep(
        &self,
        kept: &mut Self::Kept,
        objects: u32,
        entry: Self::Entry,
    ) -> Result<(), AllocError>
        requires { (body self.now).is_in_range objects entry ≡ true }
        ensures { OnOk result (said kept.new ≡ said kept.old ++ entry ∷ []) };

    /// Keeps what a text's first line says, where it is the plain line of an entry, with one space between
    /// two words and none elsewhere, whose numbers are in range where the text may have so many objects, and
    /// gives what comes after it. `None` says nothing of the line: nothing was kept.
    fn keep_plain<'a>(
        &self,
        _kept: &mut Self::Kept,
        _objects: u32,
        _text: &'a [u8],
    ) -> Option<&'a [u8]>
        ensures { MatchOption result
            (said _kept.new ≡ said _kept.old)
            (λ behind. KeepsEntry (body self.now) _objects _text.now behind.now (said _kept.old) (said _kept.new)) }
    {
        None
    }

    /// There are never so many entries that a number can't count them.
    fn are_few(&self, kept: &Self::Kept)
        ensures { length (said kept.now) < 2 ^ 63 };

    /// Whether the entry's numbers are in range, in a text that may have so many objects.
    fn is_in_range(&self, objects: u32, entry: Self::Entry) -> bool
        ensures { result ≡ (body self.now).is_in_range objects entry };

    /// Whether the entry can't be the first of the text.
    fn wants_another(&self, entry: Self::Entry) -> bool
        ensures { result ≡ (body self.now).wants_another entry };
}
