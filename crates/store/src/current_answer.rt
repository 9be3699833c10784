//! The answer that a call has now, whether it is made or not.

ghost use Rattle.std.specs.Prelude.{◌≡◌, ℕ, List, true, Some, Err, IfSome, slice_get};
ghost use Rattle.type_table.specs.Operation.{place_of};
ghost use Rattle.object_calls.specs.Answers.{busy_answer};
ghost use Rattle.serial_order.specs.History.{summary, is_open};
ghost use Rattle.serial_order.specs.Replay.{call_at, call_event};
ghost use Rattle.store_laws.specs.Stored.{objects};
ghost use Rattle.store_laws.specs.Words.{as_event};
ghost use Rattle.store.specs.Calls.{HasCall, Would, WouldCome, unnumbered};
ghost use Rattle.store.specs.Follows.{HasAnswer};

use crate::room::has_room;
use crate::store::Store;
use object_calls::{Answer, Call, call_unreplied, choose};
use object_index::ObjectIndex;
use object_trait::Recovery;
use serial_order::Refusal;
use store_laws::{answers_as_defined, rows_are_counted};
use type_table::Operation;

impl<R: Recovery> Store<R> {
    /// What `call` would answer now, for transaction t and the call with this name at object x. It is no
    /// event, takes no memory and changes nothing.
    ///
    /// # Errors
    ///
    /// `NotOpen`, `NoObject`, `NoCall` or `HistoryFull`.
    pub fn would(&self, t: u32, x: u32, name: &str) -> Result<Answer, Refusal>
        ensures { Would self.now t x name.now result }
    {
        self.would_bytes(t, x, name.as_bytes())
    }

    /// The same of a name that is given as bytes.
    ///
    /// # Errors
    ///
    /// As `would`.
    pub fn would_bytes(&self, t: u32, x: u32, name: &[u8]) -> Result<Answer, Refusal>
        ensures { Would self.now t x name.now result }
    {
        let call = self.named_call(t, x, name)?;
        self.would_give(t, ObjectIndex::of(x), &call)
    }

    /// The same of the call with this number there.
    ///
    /// # Errors
    ///
    /// As `would`; `NoCall` where no call there has this number.
    pub fn would_op(&self, t: u32, x: u32, c: Operation) -> Result<Answer, Refusal>
        ensures answer { (name : List ℕ) → call_at (slice_get (objects self.now) x) name ≡ Some c → Would self.now t x name result }
        ensures unnumbered { ((name : List ℕ) → call_at (slice_get (objects self.now) x) name ≡ Some c → ⊥) → result ≡ Err (unnumbered self.now t x) }
    {
        let call = self.numbered_call(t, x, c)?;
        self.would_give(t, ObjectIndex::of(x), &call)
    }

    /// Of the calls at object x whose first operation has this place one that would be answered with this holder, or
    /// with none, where there is one.
    pub(crate) fn call_unreplied(
        &self,
        t: u32,
        x: u32,
        place: u8,
        holder: Option<u32>,
    ) -> Option<Operation>
        ensures place { IfSome result (λ c. place_of c ≡ place) }
        ensures found { is_open (summary self.now.history) t ≡ true → (d : ℕ) → place_of d ≡ place → HasAnswer self.now t x d (busy_answer holder)
            → (c : ℕ) × (result ≡ Some c) × HasAnswer self.now t x c (busy_answer holder) }
    {
        answers_as_defined();
        let object = self.objects.get(x as usize)?;
        call_unreplied(object, t, place, holder)
    }

    /// What t's call at object x, which has it, would be given.
    fn would_give(&self, t: u32, x: ObjectIndex, call: &Call) -> Result<Answer, Refusal>
        requires still_open { is_open (summary self.now.history) t ≡ true }
        requires call { HasCall (slice_get (objects self.now) x) call.now }
        ensures { WouldCome self.now t x call.now.first result }
    {
        rows_are_counted();
        let opened = self.transactions.open_count();
        if !has_room(self.forgotten, &self.history, opened, 1, self.limits.events) {
            return Err(Refusal::HistoryFull);
        }
        Ok(self.chosen(t, x, call))
    }

    /// The answer that t's call at object x has, which is there.
    #[inline(always)]
    pub(crate) fn chosen(&self, t: u32, x: ObjectIndex, call: &Call) -> Answer
        requires still_open { is_open (summary self.now.history) t ≡ true }
        requires call { HasCall (slice_get (objects self.now) x) call.now }
        ensures { call_event (slice_get (objects self.now) x) (summary self.now.history) x t (Some call.now.first) ≡ Some (as_event t x call.now.first result) }
    {
        answers_as_defined();
        choose(&self.objects[x.number() as usize], t, *call)
    }
}
