//! The canonical text of a history.

ghost use Rattle.std.specs.Prelude.{◌≡◌, ◌++◌, ◌∷◌, [], map, None};
ghost use Rattle.line_text.specs.Spelling.{spaced, text_of};
ghost use Rattle.outputs.specs.Out.{Puts};
ghost use Rattle.store_text.specs.Kept.{size_lines};
ghost use Rattle.store_text.specs.declared.line.Line.TheVariants.{End};
ghost use Rattle.history_text.specs.Canonical.{canonical_size, canonical_text, event_line_words, words_of, object_line, event_line};
ghost use Rattle.history_text.specs.Events.{op_event_line};
ghost use Rattle.type_table.specs.Operation.{place_of, amount_of};

use crate::size::canonical_size;
use itoa::Buffer;
use object_trait::{Event, EventKind};
use outputs::{Out, OutFault, items_in_turn, put_line, texts_in_turn};
use store_text::ObjectLine;
use type_table::Operation;

/// Writes the canonical text of a history: how many objects it may have where that has to be said, a line for
/// each object and then for each event, with one space between words, and `end`. Where every number and count is in its range, what is read from
/// the text is this history (`written_is_read`). It takes no memory itself.
///
/// # Errors
///
/// The fault that stopped the output, which then took a beginning of the text.
pub fn write_history<W: Out>(
    objects: &[ObjectLine],
    events: &[Event],
    out: &mut W,
) -> Result<(), OutFault>
    requires { W.fault out.old ≡ None }
    ensures { Puts (W.taken out.old) (W.taken out.new) (W.fault out.new) (canonical_text objects.now events.now) result }
{
    texts_in_turn();
    write_size(out, objects)?;
    write_objects(out, objects)?;
    write_events(out, events)?;
    put_line(out, b"end", &[])
}

/// Writes the `objects` line of these objects, where they are more than 256, a type's place is above 255 or one
/// has a name.
///
/// # Errors
///
/// The fault that stopped the output, which then took a beginning of the line.
pub fn write_size<W: Out>(out: &mut W, objects: &[ObjectLine]) -> Result<(), OutFault>
    requires { W.fault out.old ≡ None }
    ensures { Puts (W.taken out.old) (W.taken out.new) (W.fault out.new) (text_of words_of (size_lines (canonical_size objects.now))) result }
{
    texts_in_turn();
    match canonical_size(objects) {
        Some(size) => {
            let mut digits = Buffer::new();
            put_line(out, b"objects", &[digits.format(size).as_bytes()])
        }
        None => Ok(()),
    }
}

/// Writes the `object` lines.
fn write_objects<W: Out>(out: &mut W, objects: &[ObjectLine]) -> Result<(), OutFault>
    requires { W.fault out.old ≡ None }
    ensures { Puts (W.taken out.old) (W.taken out.new) (W.fault out.new) (text_of words_of (map object_line objects.now)) result }
{
    texts_in_turn();
    items_in_turn::<ObjectLine>();
    for object in objects {
        write_object(out, object)?;
    }
    Ok(())
}

/// Writes the lines of the events.
fn write_events<W: Out>(out: &mut W, events: &[Event]) -> Result<(), OutFault>
    requires { W.fault out.old ≡ None }
    ensures { Puts (W.taken out.old) (W.taken out.new) (W.fault out.new) (text_of words_of (map event_line events.now)) result }
{
    texts_in_turn();
    items_in_turn::<Event>();
    for event in events {
        write_event(out, event)?;
    }
    Ok(())
}

/// Writes the `object` line of an object.
///
/// # Errors
///
/// The fault that stopped the output, which then took a beginning of the line.
pub fn write_object<W: Out>(out: &mut W, object: &ObjectLine) -> Result<(), OutFault>
    requires { W.fault out.old ≡ None }
    ensures { Puts (W.taken out.old) (W.taken out.new) (W.fault out.new) (spaced (words_of (object_line object.now)) ++ 10 ∷ []) result }
{
    let mut file = Buffer::new();
    let kind = object.kind.word().as_bytes();
    let file = file.format(object.file).as_bytes();
    match object.name {
        Some(name) => put_line(out, b"object", &[kind, file, name.as_bytes()]),
        None => put_line(out, b"object", &[kind, file]),
    }
}

/// Writes the line of an event. The output is offered it as one piece, or spells it where it keeps its
/// bytes.
///
/// # Errors
///
/// The fault that stopped the output, which then took a beginning of the line.
pub fn write_event<W: Out>(out: &mut W, event: &Event) -> Result<(), OutFault>
    requires { W.fault out.old ≡ None }
    ensures { Puts (W.taken out.old) (W.taken out.new) (W.fault out.new) (spaced (words_of (event_line event.now)) ++ 10 ∷ []) result }
{
    let w = u32::from(event.worker);
    match event.kind {
        EventKind::Begin { t } => out.put_numbers(b"begin", &[w, t]),
        EventKind::Op { t, x, k } => write_op(out, w, t, x, k),
        EventKind::Busy { t, x, c, u } => out.put_numbers(b"busy", &[w, t, x, u32::from(c), u]),
        EventKind::None { t, x, c } => out.put_numbers(b"none", &[w, t, x, u32::from(c)]),
        EventKind::Commit { t } => out.put_numbers(b"commit", &[w, t]),
        EventKind::Abort { t } => out.put_numbers(b"abort", &[w, t]),
        EventKind::Rollback { t, n } => out.put_numbers(b"rollback", &[w, t, n]),
    }
}

/// Writes the line of an operation.
fn write_op<W: Out>(out: &mut W, w: u32, t: u32, x: u32, k: Operation) -> Result<(), OutFault>
    requires { W.fault out.old ≡ None }
    ensures { Puts (W.taken out.old) (W.taken out.new) (W.fault out.new) (spaced (event_line_words (op_event_line w t x (place_of k) (amount_of k))) ++ 10 ∷ []) result }
{
    let place = u32::from(k.place());
    match k.amount() {
        Some(n) => out.put_numbers(b"op", &[w, t, x, place, n]),
        None => out.put_numbers(b"op", &[w, t, x, place]),
    }
}
