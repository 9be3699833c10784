//! The text of an epoch.

ghost use Rattle.std.specs.Prelude.{◌≡◌, List, map, None};
ghost use Rattle.outputs.specs.Out.{Puts};
ghost use Rattle.object_trait.specs.declared.event.EventKind.{EventKind};
ghost use Rattle.line_text.specs.Spelling.{text_of};
ghost use Rattle.event_text.specs.EventText.{AreShort, event_lines, events_of_kinds};
ghost use Rattle.history_text.specs.Canonical.{canonical_text, object_line, words_of};
ghost use Rattle.epoch_text.specs.EpochText.{text_with_lines};

use crate::laws::lines_are_canonical;
use history_text::{write_object, write_size};
use outputs::{Out, OutFault, items_in_turn, put, texts_in_turn};
use store_text::ObjectLine;

/// Writes the canonical text of the history of an epoch, by worker 0, whose events are in lines already: how many objects it
/// may have where that has to be said, a line for each object, these lines, and `end`. It takes no memory itself.
///
/// # Errors
///
/// The fault that stopped the output, which then took a beginning of the text.
pub fn write_epoch<W: Out>(
    objects: &[ObjectLine],
    lines: &[u8],
    out: &mut W,
) -> Result<(), OutFault>
    requires { W.fault out.old ≡ None }
    ensures lines { Puts (W.taken out.old) (W.taken out.new) (W.fault out.new) (text_with_lines objects.now lines.now) result }
    ensures canonical { (happened : List EventKind) → AreShort happened → lines.now ≡ event_lines happened
        → Puts (W.taken out.old) (W.taken out.new) (W.fault out.new) (canonical_text objects.now (events_of_kinds happened)) result }
{
    lines_are_canonical();
    write_parts(objects, lines, out)
}

/// Writes the text of an epoch, part by part.
fn write_parts<W: Out>(objects: &[ObjectLine], lines: &[u8], out: &mut W) -> Result<(), OutFault>
    requires { W.fault out.old ≡ None }
    ensures { Puts (W.taken out.old) (W.taken out.new) (W.fault out.new) (text_with_lines objects.now lines.now) result }
{
    texts_in_turn();
    write_size(out, objects)?;
    write_objects(out, objects)?;
    put(out, lines)?;
    put(out, b"end\n")
}

/// Writes the `object` lines.
fn write_objects<W: Out>(out: &mut W, objects: &[ObjectLine]) -> Result<(), OutFault>
    requires { W.fault out.old ≡ None }
    ensures { Puts (W.taken out.old) (W.taken out.new) (W.fault out.new) (text_of words_of (map object_line objects.now)) result }
{
    texts_in_turn();
    items_in_turn::<ObjectLine>();
    for object in objects {
        write_object(out, object)?;
    }
    Ok(())
}
