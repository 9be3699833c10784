//! `check`: whether what a text declares is good for a kind of recovery.

ghost use Rattle.std.specs.Prelude.{◌≡◌, None, IfSome};
ghost use Rattle.command_files.specs.Answers.{Comes};
ghost use Rattle.declared_types.specs.Declarations.{IsDeclaredFor, file_of};
ghost use Rattle.type_commands.specs.Verdict.{CannotBeChecked, ChecksFile, IsToldEscrow, NeedsEscrow, SaysOf, yes_line};

use crate::asked_type::{check_declared, copied, read_for};
use command_files::{Fault, Source, Verdict, no_line, put_answer};
use declared_types::DeclaredType;
use outputs::Out;
use std::thread::Threads;
use type_table::Kind;

/// `check KIND FILE`: yes with its line, strong or not, or no with the line of the first reason. A number is
/// asked about for escrow alone, and the answer is a strong yes.
///
/// # Errors
///
/// The file can't be read or its text has a fault, it declares a number and the kind isn't escrow, memory was
/// refused, or the output failed.
pub fn check_file<'a, R: AllocGlobal + Threads + Sync, S: Source, W: Out>(
    rt: &R,
    kind: Kind,
    path: &'a str,
    source: &mut S,
    out: &mut W,
) -> Result<Verdict, Fault<'a>>
    requires { W.fault out.old ≡ None }
    ensures comes { let held = S.holds source.old path.now in
        Comes (ChecksFile held kind) (IfSome held (CannotBeChecked kind)) result (W.taken out.old) (W.taken out.new) }
    ensures told { IfSome (S.holds source.old path.now) (λ text. NeedsEscrow kind text → IsToldEscrow path.now result) }
{
    let declared = read_for(rt.alloc(), kind, path, source)?;
    check_read(rt, kind, &declared, out)
}

/// The answer to what was read.
fn check_read<'a, R: AllocGlobal + Threads + Sync, W: Out>(
    rt: &R,
    kind: Kind,
    declared: &DeclaredType,
    out: &mut W,
) -> Result<Verdict, Fault<'a>>
    requires no_fault { W.fault out.old ≡ None }
    requires fits { IsDeclaredFor kind declared.now }
    ensures { Comes (SaysOf kind (file_of declared.now)) ⊥ result (W.taken out.old) (W.taken out.new) }
{
    let declaration = copied(rt.alloc(), declared)?;
    match check_declared(rt, kind, declaration) {
        Ok(checked) => {
            let line = yes_line(checked.is_strong());
            put_answer(Verdict::Yes, line.as_bytes(), out)
        }
        Err((_, refusal)) => {
            let line = no_line(rt.alloc(), refusal)?;
            put_answer(Verdict::No, line.as_bytes(), out)
        }
    }
}

pub fn yes_line(strong: bool) -> &'static str
    ensures { result.now ≡ yes_line strong }
{
    if strong {
        "yes strong\n"
    } else {
        "yes one-way\n"
    }
}
