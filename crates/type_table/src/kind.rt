ghost use Rattle.std.specs.Prelude.{◌≡◌, ℕ, List, Some, None, MatchOption};

use crate::table_kind::TableKind;
use std::fmt;

/// How an object recovers from aborts.
#[derive(Clone, Copy, Debug, PartialEq, Eq)]
pub enum Kind {
    /// Update in place with an undo log.
    Undo,
    /// Deferred update with intentions lists.
    Intentions,
    /// Escrow: deferred update of a number, whose conflicts look at its bounds.
    Escrow,
}

impl Kind {
    ghost use Rattle.type_table.specs.Kind.{kind_of, kind_word, of_table, table_kind};

    /// The kind's word in a text and on the command line: `undo`, `intentions` or `escrow`.
    pub const fn word(self) -> &'static str
        ensures { result.now ≡ kind_word self }
    {
        match self {
            Kind::Undo => "undo",
            Kind::Intentions => "intentions",
            Kind::Escrow => "escrow",
        }
    }

    /// The kind of a word, which is `None` for every other word than those of the three kinds.
    pub fn of_word(word: &[u8]) -> Option<Kind>
        ensures exact { result ≡ kind_of word.now }
        ensures named { (kind : Kind) → kind_word kind ≡ word.now → result ≡ Some kind }
    {
        [Kind::Undo, Kind::Intentions, Kind::Escrow]
            .into_iter()
            .find(|kind| kind.word().as_bytes() == word)
    }

    /// The same kind as one that has a conflict table, which escrow hasn't.
    pub fn table_kind(self) -> Option<TableKind>
        ensures exact { result ≡ table_kind self }
        ensures back { MatchOption result (self ≡ Kind.Escrow) (λ kind. of_table kind ≡ self) }
    {
        match self {
            Kind::Undo => Some(TableKind::Undo),
            Kind::Intentions => Some(TableKind::Intentions),
            Kind::Escrow => None,
        }
    }
}

impl From<TableKind> for Kind {
    ghost use Rattle.type_table.specs.Kind.{of_table};

    ghost from_gives = { λ kind result. result ≡ of_table kind };

    fn from(kind: TableKind) -> Kind {
        match kind {
            TableKind::Undo => Kind::Undo,
            TableKind::Intentions => Kind::Intentions,
        }
    }
}

/// Writes the kind's word.
impl fmt::Display for Kind {
    ghost use Rattle.type_table.specs.Kind.{kind_word};

    ghost output = { λ kind. Some (kind_word kind) };

    fn fmt<W: fmt::Write>(&self, f: &mut fmt::Formatter<W>) -> fmt::Result {
        f.write_str(self.word())
    }
}
