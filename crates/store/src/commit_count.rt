//! How many transactions have committed.

ghost use Rattle.std.specs.Prelude.{◌≡◌, ℕ, ◌≤◌, length};
ghost use Rattle.serial_order.specs.History.{commits, committed_by};
ghost use Rattle.store_laws.specs.Events.{end_event};

use crate::store::Store;
use object_calls::End;
use object_trait::Recovery;

impl<R: Recovery> Store<R> {
    /// How many transactions have committed, those of forgotten events too.
    pub fn commit_count(&self) -> u32
        ensures { result ≡ length (commits self.now.history) }
    {
        self.committed
    }
}

/// How many commits an end is.
#[inline(always)]
pub(crate) fn commits_of(how: End) -> u32
    ensures exact { (t : ℕ) → result ≡ length (committed_by (end_event how t)) }
    ensures within { result ≤ 1 }
{
    match how {
        End::Commit => 1,
        End::Abort => 0,
    }
}
