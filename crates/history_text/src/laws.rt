//! Laws of the canonical text: each is a function that does nothing, whose contract is the law. It
//! calls the laws on which it depends.

ghost use Rattle.history_text.specs.Canonical.{CanonicalIsRead, CommentsAreSkipped, WrittenIsRead};

use crate::event_line::EventLine;
use line_text::{canonical_reads_again, comments_are_skipped, numbers_read_again};
use store_text::Line;

/// The canonical text of a history whose numbers and counts are in their ranges has a value, and its
/// lines say this history.
pub fn canonical_is_read()
    ensures { CanonicalIsRead }
{
    canonical_reads_again::<Line<EventLine>>();
    numbers_read_again();
}

/// What is read from the canonical text of such a history is that history.
pub fn written_is_read()
    ensures { WrittenIsRead }
{
    canonical_is_read();
}

/// Comments in the text of a history say nothing, wherever they are.
pub fn comments_tell_nothing()
    ensures { CommentsAreSkipped }
{
    comments_are_skipped::<Line<EventLine>>();
}
