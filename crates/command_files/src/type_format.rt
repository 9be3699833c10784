//! Type files, and texts that declare a type.

ghost use Rattle.std.specs.Prelude.{⊤};
ghost use Rattle.declared_types.specs.Declarations.{IsFitDeclaration};
ghost use Rattle.declared_text.specs.Declared.{Declares};
ghost use Rattle.command_files.specs.Files.{Describes, IsFaulty, IsFaultyDeclaration};

use crate::format::Format;
use declared_text::read_declared;
use declared_types::{Declaration, DeclaredType, TypeFile};
use line_text::TextFault;
use std::alloc::Global;
use type_text::read_type;

/// The format of type files.
#[derive(Clone, Copy)]
pub struct TypeFormat;

impl Format for TypeFormat {
    type Value = TypeFile;

    ghost describes = { λ _ text file. Describes text file };

    ghost is_fit = { λ _ _. ⊤ };

    ghost is_faulty = { λ _ text. IsFaulty text };

    fn read(&self, alloc: Global, text: &[u8]) -> Result<TypeFile, TextFault> {
        read_type(alloc, text)
    }
}

/// The format of texts that declare a type, by a table or as a number.
#[derive(Clone, Copy)]
pub struct DeclaredFormat;

impl Format for DeclaredFormat {
    type Value = DeclaredType;

    ghost describes = { λ _ text declared. Declares text declared };

    ghost is_fit = { λ _ declared. IsFitDeclaration declared };

    ghost is_faulty = { λ _ text. IsFaultyDeclaration text };

    fn read(&self, alloc: Global, text: &[u8]) -> Result<DeclaredType, TextFault> {
        let declared = read_declared(alloc, text)?;
        known(&declared);
        Ok(declared)
    }
}

/// What is known of each declaration.
fn known(declared: &DeclaredType)
    ensures { IsFitDeclaration declared.now }
{
    match declared.declaration() {
        Declaration::Table(file) => {
            file.table.states();
        }
        Declaration::Number(number) => {
            number.calls();
        }
    }
}
