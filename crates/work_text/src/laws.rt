//! A law of the text of what workers did: a function that does nothing, whose contract is the law. It
//! calls the laws on which it depends.

ghost use Rattle.work_text.specs.TextHistory.{WorkIsRead};

use history_text::{canonical_is_read, comments_tell_nothing};

/// What workers did is read from its text as a history: after those of the history all lines are
/// comments.
pub fn work_is_read()
    ensures { WorkIsRead }
{
    canonical_is_read();
    comments_tell_nothing();
}
