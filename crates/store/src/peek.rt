//! What a transaction that only reads is answered.

ghost use Rattle.std.specs.Prelude.{◌≡◌, None, MatchOption, slice_get};
ghost use Rattle.store_laws.specs.Stored.{objects};
ghost use Rattle.object_trait.specs.Sound.{IsSound};
ghost use Rattle.table_checker.specs.Checked.{IsChecked};
ghost use Rattle.object_calls.specs.Calls.{IsCall};
ghost use Rattle.store.specs.Peeks.{ComesAt, ComesOfPeek, IsObjectAt};

use crate::refusals::PeekRefusal;
use crate::store::Store;
use committed_reads::{is_still_call, still_changes_nothing};
use committed_states::{committed_agrees, committed_is_there};
use object_calls::{Call, reply_at};
use object_trait::{Renew, checked_is_covered, sound_has_committed};
use type_table::Operation;

impl<R: Renew> Store<R> {
    /// What the call with this name at object x is answered to a transaction that only reads committed states: its first
    /// operation that is legal there, None where none is. It makes no event, holds nothing and waits for nobody, and
    /// nobody waits for it: it is serial where it reads.
    ///
    /// # Errors
    ///
    /// `NoObject`, `NoCall`, or `Changes` where some operation of the call changes something.
    pub fn peek(&self, x: u32, name: &str) -> Result<Option<Operation>, PeekRefusal>
        ensures { ComesOfPeek self.now x name.now result }
    {
        self.peek_bytes(x, name.as_bytes())
    }

    /// The same of a call whose name has these bytes.
    ///
    /// # Errors
    ///
    /// As `peek`.
    pub fn peek_bytes(&self, x: u32, name: &[u8]) -> Result<Option<Operation>, PeekRefusal>
        ensures { ComesOfPeek self.now x name.now result }
    {
        still_changes_nothing();
        let Some(object) = self.object_at(x) else {
            return Err(PeekRefusal::NoObject);
        };
        match self.calls[x as usize].by_name(object.declared(), name) {
            Some(call) => peeked(object, call),
            None => Err(PeekRefusal::NoCall),
        }
    }

    /// The object at x.
    fn object_at(&self, x: u32) -> Option<&R>
        ensures { MatchOption result (slice_get (objects self.now) x ≡ None) (λ object. IsObjectAt self.now x (R.meaning object.now)) }
    {
        checked_is_covered();
        committed_is_there();
        committed_agrees();
        let Some(object) = self.objects.get(x as usize) else {
            return None;
        };
        Some(object)
    }
}

/// The same of a call of an object.
fn peeked<R: Renew>(object: &R, call: Call) -> Result<Option<Operation>, PeekRefusal>
    requires checked { IsChecked (R.meaning object.now).checked }
    requires sound { IsSound (R.meaning object.now) }
    requires call { IsCall (R.meaning object.now).checked.file.table call }
    ensures { ComesAt (R.meaning object.now) call.first result }
{
    checked_is_covered();
    sound_has_committed();
    if !is_still_call(object.checked(), call.first) {
        return Err(PeekRefusal::Changes);
    }
    let state = object.committed();
    Ok(reply_at(object.declared(), state, call))
}
