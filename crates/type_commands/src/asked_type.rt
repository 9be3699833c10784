//! The type that a command asks about: read from a text that declares it, and put to the checker.

ghost use Rattle.std.specs.Prelude.{◌≡◌, ◌↔◌, true, IfErr, IfOk, IfSome, OnOk};
ghost use Rattle.command_files.specs.Answers.{IsEarlyFault};
ghost use Rattle.command_files.specs.Files.{IsDeclaredAt};
ghost use Rattle.table_checker.specs.Answer.{IsAnswer};
ghost use Rattle.declared_types.specs.Declarations.{IsDeclaredFor, file_of};
ghost use Rattle.table_checker.specs.Laws.{CoversType};
ghost use Rattle.type_commands.specs.Verdict.{CannotBeChecked, IsToldEscrow, NeedsEscrow};

use command_files::{DeclaredFormat, Fault, Source, read_file};
use declared_types::{Declaration, DeclaredType, TypeFile};
use std::alloc::{AllocError, Global};
use std::thread::Threads;
use table_checker::{CheckRefusal, CheckedType, check_number, check_parallel};
use type_table::Kind;

/// What the text at a path declares, where it may be asked about for this kind.
///
/// # Errors
///
/// The file can't be read or its text has a fault, the text declares a number and the kind isn't escrow, or
/// memory was refused.
pub fn read_for<'a, S: Source>(
    alloc: Global,
    kind: Kind,
    path: &'a str,
    source: &mut S,
) -> Result<DeclaredType, Fault<'a>>
    ensures reads { IfOk result (λ declared. IsDeclaredAt (S.holds source.old path.now) declared) }
    ensures fits { IfOk result (IsDeclaredFor kind) }
    ensures refused { IfErr result (IsEarlyFault (IfSome (S.holds source.old path.now) (CannotBeChecked kind))) }
    ensures told { IfSome (S.holds source.old path.now) (λ text. NeedsEscrow kind text → IsToldEscrow path.now result) }
{
    let declared = read_file(alloc, &DeclaredFormat, path, source)?;
    if !is_for(&declared, kind) {
        return Err(Fault::NeedsEscrow { path });
    }
    Ok(declared)
}

/// Whether what is declared may be asked about for a kind.
fn is_for(declared: &DeclaredType, kind: Kind) -> bool
    ensures { (result ≡ true) ↔ IsDeclaredFor kind declared.now }
{
    match declared.declaration() {
        Declaration::Table(_) => true,
        Declaration::Number(_) => kind == Kind::Escrow,
    }
}

/// A copy of what is declared, which the checker may take.
pub fn copied(alloc: Global, declared: &DeclaredType) -> Result<Declaration, AllocError>
    ensures { IfOk result (λ declaration. declaration ≡ declared.now) }
{
    match declared.declaration() {
        Declaration::Table(file) => Ok(Declaration::Table(file.copy(alloc)?)),
        Declaration::Number(number) => Ok(Declaration::Number(number.copy(alloc)?)),
    }
}

/// The checker's answer to it, by all processors.
///
/// # Errors
///
/// As `check_parallel`. A number is never refused.
pub fn check_declared(
    rt: &(impl Threads + Sync),
    kind: Kind,
    declaration: Declaration,
) -> Result<CheckedType, (TypeFile, CheckRefusal)>
    requires { IsDeclaredFor kind declaration }
    ensures exact { IsAnswer kind (file_of declaration) result }
    // Over all lists of operations.
    ensures covers { OnOk result (CoversType kind (file_of declaration)) }
{
    match declaration {
        Declaration::Table(file) => check_parallel(rt, file, kind),
        Declaration::Number(number) => {
            let checked = check_number(number);
            // (read for its clause on what was checked)
            let _initial = checked.initial();
            Ok(checked)
        }
    }
}
