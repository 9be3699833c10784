//! The canonical text of what declares a type, as an answer.

ghost use Rattle.std.specs.Prelude.{◌≡◌, None, IfOk};
ghost use Rattle.command_files.specs.Answers.{Comes, IsThis};
ghost use Rattle.command_files.specs.declared.status.Verdict.TheVariants.{Yes};
ghost use Rattle.declared_text.specs.Canonical.{canonical_text};

use command_files::{Fault, Verdict, put_answer};
use declared_text::write_declared;
use declared_types::DeclaredType;
use outputs::{Out, OutFault, Sink};
use std::alloc::Global;

/// Answers with the canonical text of what declares a type. It is put together in memory first, so that a
/// growth that is refused leaves nothing written.
pub fn answer_declared<'a, W: Out>(
    alloc: Global,
    declared: &DeclaredType,
    out: &mut W,
) -> Result<Verdict, Fault<'a>>
    requires { W.fault out.old ≡ None }
    ensures { Comes (IsThis Yes (canonical_text declared.now)) ⊥ result (W.taken out.old) (W.taken out.new) }
{
    match text_of(alloc, declared) {
        Ok(text) => put_answer(Verdict::Yes, &text, out),
        Err(_) => Err(Fault::NoMemory),
    }
}

/// The canonical text of what declares a type. A growth that is refused stops it.
fn text_of(alloc: Global, declared: &DeclaredType) -> Result<Vec<u8>, OutFault>
    ensures { IfOk result (λ text. text.items ≡ canonical_text declared.now) }
{
    let mut text = Sink::new(Vec::new(alloc));
    write_declared(declared, &mut text)?;
    Ok(text.into_inner())
}
