ghost use Rattle.type_text.specs.TypeFile.{Reads};

use crate::build::file_of;
use crate::type_grammar::TypeGrammar;
use crate::type_line::TypeLine;
use declared_types::TypeFile;
use line_text::{FaultKind, TextFault, accepted_in_order, read_items};
use std::alloc::Global;

/// The file of a text, or the text's first fault.
///
/// `NoMemory` comes in place of either where memory was refused; its line is the one that was
/// being read, or the first where the lines were read and the file was being built.
pub fn read_type(alloc: Global, text: &[u8]) -> Result<TypeFile, TextFault>
    ensures { Reads result text.now }
{
    accepted_in_order::<TypeLine>();
    let lines = read_items(alloc, &TypeGrammar, text)?;
    match file_of(alloc, &lines) {
        Ok(file) => Ok(file),
        Err(_) => Err(TextFault {
            line: 1,
            kind: FaultKind::NoMemory,
        }),
    }
}
