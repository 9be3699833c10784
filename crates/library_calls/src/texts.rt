//! What texts declare, and type files with made tables.

ghost use Rattle.std.specs.Prelude.{◌≡◌, ◌⊎◌, IfErr, IfOk, MatchResult, Ok};
ghost use Rattle.type_text.specs.TypeFile.{Reads as ReadsTable};
ghost use Rattle.declared_text.specs.Declared.{Declares};
ghost use Rattle.library_calls.specs.Codes.{number};
ghost use Rattle.library_calls.specs.Types.{HasRemadeTables, TellsTextFault, IsNoTypeFile, IsTabledOf};
ghost use Rattle.library_calls.specs.Words.{fault_words};

use crate::code::Code;
use crate::words::{ColockFault, fault_words};
use declared_text::read_declared;
use declared_types::{DeclaredType, TypeFile};
use line_text::{FaultKind, TextFault};
use std::alloc::Global;
use table_maker::make_tables;
use type_text::read_type;

/// What a text declares.
///
/// # Errors
///
/// `BadText` and the fault, or `NoMemory`.
pub fn declared_of(
    alloc: Global,
    text: &[u8],
    fault: &mut ColockFault,
) -> Result<DeclaredType, Code>
    ensures read { IfOk result (λ declared. Declares text.now declared × (fault.new ≡ fault.old)) }
    ensures refused { IfErr result (λ code. ((code ≡ Code.NoMemory) × (fault.new ≡ fault.old)) ⊎ TellsTextFault text.now (number code) fault.new) }
{
    match read_declared(alloc, text) {
        Ok(declared) => Ok(declared),
        Err(why) => Err(fault_code(why, fault)),
    }
}

/// The type file that a text is.
///
/// # Errors
///
/// As `declared_of`.
fn file_of(alloc: Global, text: &[u8], fault: &mut ColockFault) -> Result<TypeFile, Code>
    ensures read { IfOk result (λ file. ReadsTable (Ok file) text.now × (fault.new ≡ fault.old)) }
    ensures refused { IfErr result (λ code. ((code ≡ Code.NoMemory) × (fault.new ≡ fault.old)) ⊎ IsNoTypeFile text.now (number code) fault.new) }
{
    match read_type(alloc, text) {
        Ok(file) => Ok(file),
        Err(why) => Err(fault_code(why, fault)),
    }
}

/// The code of a text's fault, which is given unless memory was refused.
fn fault_code(why: TextFault, fault: &mut ColockFault) -> Code
    ensures { ((result ≡ Code.NoMemory) × (fault.new ≡ fault.old)) ⊎ ((why.kind ≡ FaultKind.NoMemory → ⊥) × (result ≡ Code.BadText) × (fault.new ≡ fault_words why)) }
{
    match why.kind {
        FaultKind::NoMemory => Code::NoMemory,
        _ => {
            *fault = fault_words(why);
            Code::BadText
        }
    }
}

/// The type file that a text is, with made tables in place of its own.
///
/// # Errors
///
/// As `declared_of`.
pub fn tabled(alloc: Global, text: &[u8], fault: &mut ColockFault) -> Result<TypeFile, Code>
    ensures made { IfOk result (λ file. IsTabledOf text.now file × (fault.new ≡ fault.old)) }
    ensures refused { IfErr result (λ code. ((code ≡ Code.NoMemory) × (fault.new ≡ fault.old)) ⊎ IsNoTypeFile text.now (number code) fault.new) }
{
    let given = match file_of(alloc, text, fault) {
        Ok(given) => given,
        Err(code) => return Err(code),
    };
    match with_tables(alloc, &given) {
        Ok(file) => Ok(file),
        Err(code) => Err(code),
    }
}

/// The file with made tables in place of its own.
///
/// # Errors
///
/// `NoMemory`.
fn with_tables(alloc: Global, given: &TypeFile) -> Result<TypeFile, Code>
    ensures { MatchResult result (HasRemadeTables given.now) (λ code. code ≡ Code.NoMemory) }
{
    match make_tables(alloc, &given.table, given.reach) {
        Ok(file) => Ok(file),
        // it has no other error
        Err(_) => Err(Code::NoMemory),
    }
}
