ghost use Rattle.number_text.specs.NumberFile.{Reads};

use crate::build::number_of;
use crate::number_grammar::NumberGrammar;
use crate::number_line::NumberLine;
use line_text::{FaultKind, TextFault, accepted_in_order, read_items};
use number_types::NumberFile;
use std::alloc::Global;

/// The number of a text, or the text's first fault.
///
/// `NoMemory` comes in place of either where memory was refused; its line is the one that was
/// being read, or the first where the lines were read and the number was being built.
pub fn read_number(alloc: Global, text: &[u8]) -> Result<NumberFile, TextFault>
    ensures { Reads result text.now }
{
    accepted_in_order::<NumberLine>();
    let lines = read_items(alloc, &NumberGrammar, text)?;
    match number_of(alloc, &lines) {
        Ok(number) => Ok(number),
        Err(_) => Err(TextFault {
            line: 1,
            kind: FaultKind::NoMemory,
        }),
    }
}
