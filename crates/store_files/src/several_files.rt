//! The files that several words name.

ghost use Rattle.std.specs.Prelude.{◌≡◌, ℕ, List, All, map, IfOk, IfErr};
ghost use Rattle.command_files.specs.Answers.{IsEarlyFault};
ghost use Rattle.declared_types.specs.Declarations.{IsFitDeclaration};
ghost use Rattle.store_files.specs.Histories.{AreHistoriesAt, IsFirstFaultyHistory};
ghost use Rattle.store_files.specs.Types.{AreDeclaredAt, AreReadAt, IsFirstFaultyDeclaration, IsFirstFaultyOf};

use crate::formats::HistoryFormat;
use command_files::{DeclaredFormat, Fault, Format, Source, read_file};
use declared_types::DeclaredType;
use history_text::HistoryFile;
use std::alloc::Global;

/// What declares the types at these paths, in their order, each read before the next is opened.
///
/// # Errors
///
/// The fault of the first text that has one or can't be read, or that memory was refused.
pub fn read_declared<'a, S: Source>(
    alloc: Global,
    paths: &[&'a str],
    source: &mut S,
) -> Result<Vec<DeclaredType>, Fault<'a>>
    ensures read { IfOk result (λ types. AreDeclaredAt (S.holds source.old) (map (λ p. p.now) paths.now) types.items) }
    ensures fit { IfOk result (λ types. All IsFitDeclaration types.items) }
    ensures refused { IfErr result (IsEarlyFault (IsFirstFaultyDeclaration (S.holds source.old) (map (λ p. p.now) paths.now))) }
    ensures kept { (other : List ℕ) → S.holds source.new other ≡ S.holds source.old other }
{
    read_files(alloc, &DeclaredFormat, paths, source)
}

/// The histories at these paths, as `read_declared` reads types.
pub fn read_histories<'a, S: Source>(
    alloc: Global,
    paths: &[&'a str],
    source: &mut S,
) -> Result<Vec<HistoryFile>, Fault<'a>>
    ensures read { IfOk result (λ files. AreHistoriesAt (S.holds source.old) (map (λ p. p.now) paths.now) files.items) }
    ensures refused { IfErr result (IsEarlyFault (IsFirstFaultyHistory (S.holds source.old) (map (λ p. p.now) paths.now))) }
    ensures kept { (other : List ℕ) → S.holds source.new other ≡ S.holds source.old other }
{
    read_files(alloc, &HistoryFormat, paths, source)
}

/// What the texts at these paths describe, in their order, each read before the next is opened.
///
/// # Errors
///
/// The fault of the first text that has one or can't be read, or that memory was refused.
fn read_files<'a, F: Format, S: Source>(
    alloc: Global,
    format: &F,
    paths: &[&'a str],
    source: &mut S,
) -> Result<Vec<F::Value>, Fault<'a>>
    ensures read { IfOk result (λ files. AreReadAt (F.describes format.now) (S.holds source.old) (map (λ p. p.now) paths.now) files.items) }
    ensures fit { IfOk result (λ files. All (F.is_fit format.now) files.items) }
    ensures refused { IfErr result (IsEarlyFault (IsFirstFaultyOf (F.describes format.now) (F.is_faulty format.now) (S.holds source.old) (map (λ p. p.now) paths.now))) }
    ensures kept { (other : List ℕ) → S.holds source.new other ≡ S.holds source.old other }
{
    let mut files = Vec::with_capacity(alloc, paths.len())?;
    for path in paths {
        let file = read_file(alloc, format, path, source)?;
        files.push_reserved(file);
    }
    Ok(files)
}
