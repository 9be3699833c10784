use crate::object_lines::ObjectLines;
use crate::parts::Parts;
use std::alloc::Global;

/// The parts that the lines so far say, with what is kept of the entries.
#[derive(Drop)]
pub struct KeptParts<Kept: Drop> {
    pub size: Option<u32>,
    pub max: Option<u32>,
    pub objects: ObjectLines,
    pub entries: Kept,
    /// Whether `end` has come.
    pub has_ended: bool,
}

impl<Kept: Drop> KeptParts<Kept> {
    ghost use Rattle.std.specs.Prelude.{◌≡◌, [], None, false};
    ghost use Rattle.store_text.specs.Kept.{limit_of};
    ghost use Rattle.store_text.specs.Named.{AreNamed};

    /// No line, and what is kept of no entry.
    pub fn new(alloc: Global, entries: Kept) -> KeptParts<Kept>
        ensures size { result.size ≡ None }
        ensures max { result.max ≡ None }
        ensures objects { result.objects.lines.items ≡ [] }
        ensures entries { result.entries ≡ entries }
        ensures unended { result.has_ended ≡ false }
    {
        KeptParts {
            size: None,
            max: None,
            objects: ObjectLines::new(alloc),
            entries,
            has_ended: false,
        }
    }

    /// The parts of a text that was read to its end.
    pub fn into_parts(self) -> Parts<Kept>
        ensures size { result.size ≡ self.size }
        ensures max { result.max ≡ limit_of self.max }
        ensures objects { result.objects.items ≡ self.objects.lines.items }
        ensures named { AreNamed result.objects.items }
        ensures entries { result.entries ≡ self.entries }
    {
        let KeptParts {
            size,
            max,
            objects,
            entries,
            has_ended: _,
        } = self;
        Parts {
            size,
            max: max.unwrap_or(0),
            objects: objects.into_lines(),
            entries,
        }
    }
}
