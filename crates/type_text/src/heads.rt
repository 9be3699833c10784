ghost use Rattle.std.specs.Prelude.{◌≡◌};
ghost use Rattle.std.specs.List.{list_any};
ghost use Rattle.type_table.specs.Op.{is_same_op};
ghost use Rattle.type_text.specs.TypeLines.{states_in, states_of, is_twin};

use crate::type_line::TypeLine;
use type_table::Op;

/// The number of states, which the second line says.
pub fn states_of(lines: &[TypeLine]) -> u32
    ensures { result ≡ states_of lines.now }
{
    match lines.get(1) {
        Some(TypeLine::States(states)) => *states,
        _ => 0,
    }
}

/// Whether an `op` line of this operation is among the lines.
pub fn has_op(lines: &[TypeLine], op: Op) -> bool
    ensures { result ≡ list_any (is_twin (TypeLine.Operation op)) lines.now }
{
    lines.iter().any(|line| match line {
        TypeLine::Operation(other) => op == *other,
        _ => false,
    })
}
