ghost use Rattle.std.specs.Prelude.{◌≡◌, IfOk};
ghost use Rattle.command_files.specs.Refusals.{no_line};

use std::alloc::{AllocError, Global};
use table_checker::CheckRefusal;

/// The line of a no, spelled here and not by the refusal's `Display`, so that its bytes are proved.
pub fn no_line(alloc: Global, refusal: CheckRefusal) -> Result<String, AllocError>
    ensures { IfOk result (λ line. line.bytes.items ≡ no_line refusal) }
{
    match refusal {
        CheckRefusal::InitialOutside => format!(in alloc; "no InitialOutside\n"),
        CheckRefusal::NotClosed { s, k } => format!(in alloc; "no NotClosed {s} {k}\n"),
        CheckRefusal::NotSimulation { s, t, k } => {
            format!(in alloc; "no NotSimulation {s} {t} {k}\n")
        }
        CheckRefusal::NotCommuting { p, q, s } => {
            format!(in alloc; "no NotCommuting {p} {q} {s}\n")
        }
        CheckRefusal::NotNumeric { k, s } => format!(in alloc; "no NotNumeric {k} {s}\n"),
    }
}
