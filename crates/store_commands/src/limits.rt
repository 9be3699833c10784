//! What a store has that is made of a text.

ghost use Rattle.std.specs.Prelude.{◌≡◌};
ghost use Rattle.store_commands.specs.StoreAudit.{text_limits};

use store_limits::Limits;
use store_text::may_have;

/// The standard limits, but for the events and the objects of a text.
pub(crate) fn text_limits(size: Option<u32>, max: u32) -> Limits
    ensures { result ≡ text_limits size max }
{
    Limits {
        objects: may_have(size),
        ..Limits::standard_with(max)
    }
}
