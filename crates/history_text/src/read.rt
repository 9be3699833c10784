ghost use Rattle.std.specs.Prelude.{IfOk};
ghost use Rattle.store_text.specs.Parts.{ReadsStoreText};
ghost use Rattle.history_text.specs.Events.{history_body};
ghost use Rattle.history_text.specs.History.{IsFitHistory, IsHistoryOf};

use crate::events::Events;
use crate::history_file::HistoryFile;
use line_text::TextFault;
use std::alloc::Global;
use store_text::{Parts, read_parts};

/// The history of a text, or the text's first fault.
///
/// `NoMemory` comes in place of either where memory was refused; its line is the one that was being
/// read.
pub fn read_history(alloc: Global, text: &[u8]) -> Result<HistoryFile, TextFault>
    ensures exact { ReadsStoreText history_body IsHistoryOf result text.now }
    ensures fit { IfOk result IsFitHistory }
{
    let parts = read_parts(alloc, Events, text)?;
    let Parts {
        size,
        max: _,
        objects,
        entries: mut events,
    } = parts;
    events.shrink_to_fit();
    Ok(HistoryFile {
        size,
        objects,
        events,
    })
}
