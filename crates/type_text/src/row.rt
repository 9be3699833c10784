ghost use Rattle.std.specs.Prelude.{◌≡◌, true, MatchResult};
ghost use Rattle.type_text.specs.Rows.{line_of_row, is_head};

use crate::type_line::TypeLine;
use type_table::TableKind;

/// A line without a name after those of the head, with a fourth of the size of a `TypeLine`.
#[derive(Clone, Copy)]
pub enum Row {
    Step { s: u32, k: u32, t: u32 },
    Reach(u32),
    Equi { s: u32, t: u32 },
    Conflict { kind: TableKind, p: u32, q: u32 },
    End,
}

/// The line of a row.
#[inline]
pub fn line_of_row(row: Row) -> TypeLine
    ensures { result ≡ line_of_row row }
{
    match row {
        Row::Step { s, k, t } => TypeLine::Step { s, k, t },
        Row::Reach(s) => TypeLine::Reach(s),
        Row::Equi { s, t } => TypeLine::Equi { s, t },
        Row::Conflict { kind, p, q } => TypeLine::Conflict { kind, p, q },
        Row::End => TypeLine::End,
    }
}

/// The row of a line, or the line itself where it is one of the head.
#[inline]
pub fn row_of(line: TypeLine) -> Result<Row, TypeLine>
    ensures { MatchResult result
        (λ row. line_of_row row ≡ line)
        (λ front. (is_head line ≡ true) × (front ≡ line)) }
{
    match line {
        TypeLine::TypeName(name) => Err(TypeLine::TypeName(name)),
        TypeLine::States(states) => Err(TypeLine::States(states)),
        TypeLine::Initial(s) => Err(TypeLine::Initial(s)),
        TypeLine::Operation(op) => Err(TypeLine::Operation(op)),
        TypeLine::Step { s, k, t } => Ok(Row::Step { s, k, t }),
        TypeLine::Reach(s) => Ok(Row::Reach(s)),
        TypeLine::Equi { s, t } => Ok(Row::Equi { s, t }),
        TypeLine::Conflict { kind, p, q } => Ok(Row::Conflict { kind, p, q }),
        TypeLine::End => Ok(Row::End),
    }
}
