ghost use Rattle.std.specs.Prelude.{◌≡◌, true};
ghost use Rattle.std.specs.List.{list_all};
ghost use Rattle.type_text.specs.Rows.{is_head};

use crate::heads::{has_op, states_of};
use crate::row::{Row, row_of};
use crate::type_line::TypeLine;
use std::alloc::{AllocError, Global};
use type_table::Op;

/// The lines of a type file in order: the head up to the operations, and the others as rows.
#[derive(Drop)]
pub struct TypeLines {
    pub head: Vec<TypeLine>,
    pub rows: Vec<Row>,
    ghost heads: { list_all is_head head.items ≡ true },
}

impl TypeLines {
    ghost use Rattle.std.specs.Prelude.{◌≡◌, ◌<◌, ◌^◌, [], ◌∷◌, ◌++◌, length, false, OnOk};
    ghost use Rattle.std.specs.List.{list_any};
    ghost use Rattle.line_text.specs.Rules.{last_item};
    ghost use Rattle.line_text.specs.LineTests.{is_late};
    ghost use Rattle.type_text.specs.TypeLines.{type_rules, states_of, is_twin};
    ghost use Rattle.type_text.specs.Rows.{line_of_row};
    ghost use Rattle.type_text.specs.Kept.{kept_lines};

    /// No lines.
    pub fn new(alloc: Global) -> TypeLines
        ensures { kept_lines result ≡ [] }
    {
        TypeLines {
            head: Vec::new(alloc),
            rows: Vec::new(alloc),
        }
    }

    /// Puts a line after the others, of a rank that isn't below that of the last one.
    pub fn push(&mut self, line: TypeLine) -> Result<(), AllocError>
        requires { is_late type_rules (last_item (kept_lines self.old)) line ≡ false }
        ensures lines { OnOk result (kept_lines self.new ≡ kept_lines self.old ++ line ∷ []) }
        ensures few { OnOk result (length (kept_lines self.new) < 2 ^ 64) }
    {
        match row_of(line) {
            Ok(row) => self.push_row(row),
            Err(front) => self.push_head(front),
        }
    }

    /// Puts a line of the head after the others, which are of the head too.
    #[tactic(auto, using(crate::proofs::Rows::heads_more))]
    fn push_head(&mut self, line: TypeLine) -> Result<(), AllocError>
        requires one { is_head line ≡ true }
        requires none { self.old.rows.items ≡ [] }
        ensures lines { OnOk result (kept_lines self.new ≡ kept_lines self.old ++ line ∷ []) }
        ensures few { OnOk result (length (kept_lines self.new) < 2 ^ 64) }
    {
        self.head.push(line)?;
        Ok(())
    }

    /// Puts the line of a row after the others.
    fn push_row(&mut self, row: Row) -> Result<(), AllocError>
        ensures lines { OnOk result (kept_lines self.new ≡ kept_lines self.old ++ line_of_row row ∷ []) }
        ensures few { OnOk result (length (kept_lines self.new) < 2 ^ 64) }
    {
        self.rows.push(row)?;
        Ok(())
    }

    /// The number of states, which the second line says.
    pub fn states(&self) -> u32
        ensures { result ≡ states_of (kept_lines self.now) }
    {
        states_of(&self.head)
    }

    /// Whether an `op` line of this operation is among the lines.
    pub fn has_op(&self, op: Op) -> bool
        ensures { result ≡ list_any (is_twin (TypeLine.Operation op)) (kept_lines self.now) }
    {
        has_op(&self.head, op)
    }
}
