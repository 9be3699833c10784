//! What the lines of events say, and that numbers of events are of 32 bits.

ghost use Rattle.event_text.specs.EventText.{IsShort, LinesAreReadBack};

use object_trait::EventKind;

/// The lines of events say these events.
pub fn lines_are_read_back()
    ensures { LinesAreReadBack }
{}

/// The numbers of an event are of 32 bits, as their types say.
pub fn numbers_are_short(event: EventKind)
    ensures { IsShort event }
{
    if let EventKind::Op { k, .. } = event {
        k.amount();
    }
}
