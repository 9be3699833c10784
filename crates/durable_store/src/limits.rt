//! What a store in a file may have.

ghost use Rattle.std.specs.Prelude.{◌≡◌};
ghost use Rattle.durable_store.specs.FileLimits.{file_limits};

use store_limits::{Limits, MOST_OF_EACH};

/// The standard limits, but for its objects: from 1 to 65,536.
pub fn file_limits() -> Limits
    ensures { result ≡ file_limits }
{
    Limits {
        objects: MOST_OF_EACH,
        ..Limits::standard()
    }
}
