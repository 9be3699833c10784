//! `make`: type files of families, and numbers.

ghost use Rattle.std.specs.Prelude.{◌≡◌, None};
ghost use Rattle.command_files.specs.Answers.{Comes};
ghost use Rattle.type_commands.specs.Made.{CannotBeMade, MakesFor, MakesFamily};
ghost use Rattle.type_commands.specs.Request.{texts, wanted_of};

use crate::request::{make, request_of};
use crate::write::answer_declared;
use command_files::{Fault, Verdict};
use declared_types::DeclaredType;
use outputs::Out;
use std::alloc::Global;
use table_maker::MakeError;

/// `make FAMILY SIZE ITEM...`: the type file of the family, or the number.
///
/// # Errors
///
/// The words ask for nothing that can be made, memory was refused, or the output failed.
pub fn make_family<'a, W: Out>(
    alloc: Global,
    family: &str,
    size: &str,
    items: &[&str],
    out: &mut W,
) -> Result<Verdict, Fault<'a>>
    requires { W.fault out.old ≡ None }
    ensures { let wanted = wanted_of family.now size.now (texts items.now) in
        Comes (MakesFamily wanted) (CannotBeMade wanted) result (W.taken out.old) (W.taken out.new) }
{
    match made_of(alloc, family, size, items) {
        Ok(made) => answer_declared(alloc, &made, out),
        Err(MakeError::BadParameter) => Err(Fault::BadParameter),
        Err(MakeError::TooLarge) => Err(Fault::TooLarge),
        Err(MakeError::NoMemory) => Err(Fault::NoMemory),
    }
}

/// What the words ask for.
fn made_of(
    alloc: Global,
    family: &str,
    size: &str,
    items: &[&str],
) -> Result<DeclaredType, MakeError>
    ensures { MakesFor (wanted_of family.now size.now (texts items.now)) result }
{
    let request = request_of(alloc, family, size, items)?;
    make(alloc, &request)
}
