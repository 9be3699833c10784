ghost use Rattle.declared_text.specs.Declared.{ReadsDeclaration};

use crate::first_word::is_of_number;
use declared_types::DeclaredType;
use line_text::TextFault;
use number_text::read_number;
use std::alloc::Global;
use type_text::read_type;

/// The type that a text declares, or the text's first fault: a number by its grammar where the text's first
/// word is `number`, else a table by that of type files.
///
/// `NoMemory` comes in place of either where memory was refused; its line is the one that was being read,
/// or the first where the lines were read and the type was being built.
pub fn read_declared(alloc: Global, text: &[u8]) -> Result<DeclaredType, TextFault>
    ensures { ReadsDeclaration result text.now }
{
    if is_of_number(text) {
        Ok(DeclaredType::number(read_number(alloc, text)?))
    } else {
        Ok(DeclaredType::table(read_type(alloc, text)?))
    }
}
