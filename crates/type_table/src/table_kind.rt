ghost use Rattle.std.specs.Prelude.{◌≡◌, ℕ, List, Some};

use std::fmt;

/// A kind of recovery under which a type has a conflict table.
#[derive(Clone, Copy, Debug, PartialEq, Eq)]
pub enum TableKind {
    /// Update in place with an undo log.
    Undo,
    /// Deferred update with intentions lists.
    Intentions,
}

impl TableKind {
    ghost use Rattle.type_table.specs.Kind.{table_kind_of, table_kind_word};

    /// The kind's word in a text: `undo` or `intentions`.
    pub const fn word(self) -> &'static str
        ensures { result.now ≡ table_kind_word self }
    {
        match self {
            TableKind::Undo => "undo",
            TableKind::Intentions => "intentions",
        }
    }

    /// The kind of a word, which is `None` for every other word than those of the two kinds.
    pub fn of_word(word: &[u8]) -> Option<TableKind>
        ensures exact { result ≡ table_kind_of word.now }
        ensures named { (kind : TableKind) → table_kind_word kind ≡ word.now → result ≡ Some kind }
    {
        [TableKind::Undo, TableKind::Intentions]
            .into_iter()
            .find(|kind| kind.word().as_bytes() == word)
    }
}

/// Writes the kind's word.
impl fmt::Display for TableKind {
    ghost use Rattle.type_table.specs.Kind.{table_kind_word};

    ghost output = { λ kind. Some (table_kind_word kind) };

    fn fmt<W: fmt::Write>(&self, f: &mut fmt::Formatter<W>) -> fmt::Result {
        f.write_str(self.word())
    }
}
