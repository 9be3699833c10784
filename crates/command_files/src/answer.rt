//! The text of an answer, and what is said of a fault.

ghost use Rattle.std.specs.Prelude.{◌≡◌, ◌⊎◌, List, ℕ, None};
ghost use Rattle.command_files.specs.Answers.{Comes, IsThis};
ghost use Rattle.command_files.specs.Status.{status_of};

use crate::fault::Fault;
use crate::status::{Status, Verdict};
use outputs::{Out, put};
use std::alloc::Global;

/// Answers with a text, which is written in one piece.
///
/// # Errors
///
/// The output failed, and took a beginning of the text.
pub fn put_answer<'a, W: Out>(
    verdict: Verdict,
    text: &[u8],
    out: &mut W,
) -> Result<Verdict, Fault<'a>>
    requires { W.fault out.old ≡ None }
    ensures comes { Comes (IsThis verdict text.now) ⊥ result (W.taken out.old) (W.taken out.new) }
{
    put(out, text)?;
    Ok(verdict)
}

/// Says a fault, and answers the status: that of the fault, or `Failed` where memory for its line was
/// refused, which is said then. Where the output failed nothing is said. That this output fails changes
/// no status.
pub fn say_fault<E: Out>(alloc: Global, fault: &Fault<'_>, err: &mut E) -> Status
    requires { E.fault err.old ≡ None }
    ensures { (result ≡ status_of fault.now) ⊎ (result ≡ Status.Failed) }
{
    match fault.line(alloc) {
        Ok(line) => {
            let _ = put(err, line.as_bytes());
            fault.status()
        }
        Err(_) => {
            let _ = put(err, b"colock: no memory\n");
            Status::Failed
        }
    }
}
