ghost use Rattle.std.specs.Prelude.{IfOk};
ghost use Rattle.store_text.specs.Parts.{ReadsStoreText};
ghost use Rattle.script_text.specs.Commands.{commands};
ghost use Rattle.script_text.specs.Script.{IsScriptOf, IsFit};

use crate::commands::Commands;
use crate::script::Script;
use line_text::TextFault;
use std::alloc::Global;
use store_text::{Parts, read_parts};

/// The script of a text, or the text's first fault.
///
/// `NoMemory` comes in place of either where memory was refused; its line is the one that was being
/// read.
pub fn read_script(alloc: Global, text: &[u8]) -> Result<Script, TextFault>
    ensures exact { ReadsStoreText commands IsScriptOf result text.now }
    ensures fit { IfOk result IsFit }
{
    let parts = read_parts(alloc, Commands, text)?;
    let Parts {
        size,
        max,
        objects,
        entries: mut commands,
    } = parts;
    commands.shrink_to_fit();
    Ok(Script {
        size,
        max,
        objects,
        commands,
    })
}
