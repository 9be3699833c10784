//! A call that is made only where it has one answer.

ghost use Rattle.std.specs.Prelude.{◌≡◌, ℕ, List, true, Some, Err, IfOk, OnErr, slice_get};
ghost use Rattle.serial_order.specs.History.{summary, is_open};
ghost use Rattle.serial_order.specs.Replay.{call_at};
ghost use Rattle.store_laws.specs.Stored.{objects};
ghost use Rattle.store.specs.Calls.{CallsIf, ComesIf, HasCall, unnumbered};

use crate::store::Store;
use object_calls::{Answer, Call};
use object_index::ObjectIndex;
use object_trait::Recovery;
use serial_order::Refusal;
use type_table::Operation;

impl<R: Recovery> Store<R> {
    /// `call_op` where its answer is this one, and then true. Where it is another, false: that is no event,
    /// and the store is as it was.
    ///
    /// # Errors
    ///
    /// As `call_op`.
    pub fn call_if(
        &mut self,
        w: u8,
        t: u32,
        x: u32,
        c: Operation,
        answer: Answer,
    ) -> Result<bool, Refusal>
        ensures step { (name : List ℕ) → call_at (slice_get (objects self.old) x) name ≡ Some c → CallsIf self.old w t x name c answer result self.new }
        ensures named { IfOk result (λ made. (name : List ℕ) × (call_at (slice_get (objects self.old) x) name ≡ Some c)) }
        ensures err { OnErr result (self.new ≡ self.old) }
        ensures unnumbered { ((name : List ℕ) → call_at (slice_get (objects self.old) x) name ≡ Some c → ⊥) → (result ≡ Err (unnumbered self.old t x)) × (self.new ≡ self.old) }
    {
        let call = self.numbered_call(t, x, c)?;
        self.answer_if(w, t, ObjectIndex::of(x), &call, &answer)
    }

    /// Answers t's call at object x, which has it, where that is its answer: whether it was.
    fn answer_if(
        &mut self,
        w: u8,
        t: u32,
        x: ObjectIndex,
        call: &Call,
        answer: &Answer,
    ) -> Result<bool, Refusal>
        requires still_open { is_open (summary self.old.history) t ≡ true }
        requires call { HasCall (slice_get (objects self.old) x) call.now }
        ensures { ComesIf self.old w t x call.now.first answer.now result self.new }
    {
        let chosen = self.chosen(t, x, call);
        if chosen != *answer {
            return Ok(false);
        }
        match self.give(w, t, x, call, &chosen) {
            Ok(()) => Ok(true),
            Err(refusal) => Err(refusal),
        }
    }
}
