//! `tables`: the type file of a text, with made tables in place of its own.

ghost use Rattle.std.specs.Prelude.{◌≡◌, None, IfSome};
ghost use Rattle.command_files.specs.Answers.{Comes};
ghost use Rattle.command_files.specs.Files.{IsFaulty};
ghost use Rattle.type_commands.specs.Made.{MakesTables, MakesTablesOf};

use crate::write::answer_declared;
use command_files::{Fault, Source, TypeFormat, Verdict, read_file};
use declared_types::{DeclaredType, TypeFile};
use outputs::Out;
use std::alloc::Global;
use table_maker::make_tables;

/// `tables FILE`: the file with made tables.
///
/// # Errors
///
/// The file can't be read or its text has a fault, memory was refused, or the output failed.
pub fn make_tables_of<'a, S: Source, W: Out>(
    alloc: Global,
    path: &'a str,
    source: &mut S,
    out: &mut W,
) -> Result<Verdict, Fault<'a>>
    requires { W.fault out.old ≡ None }
    ensures { let held = S.holds source.old path.now in
        Comes (MakesTablesOf held) (IfSome held IsFaulty) result (W.taken out.old) (W.taken out.new) }
{
    let file = read_file(alloc, &TypeFormat, path, source)?;
    answer_made(alloc, &file, out)
}

/// A file with made tables in place of its own.
fn answer_made<'a, W: Out>(
    alloc: Global,
    file: &TypeFile,
    out: &mut W,
) -> Result<Verdict, Fault<'a>>
    requires { W.fault out.old ≡ None }
    ensures { Comes (MakesTables file.now) ⊥ result (W.taken out.old) (W.taken out.new) }
{
    match make_tables(alloc, &file.table, file.reach) {
        Ok(made) => {
            let declared = DeclaredType::table(made);
            answer_declared(alloc, &declared, out)
        }
        // memory was refused: it has no other error
        Err(_) => Err(Fault::NoMemory),
    }
}
