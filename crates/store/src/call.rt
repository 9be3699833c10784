//! Calls of a transaction, and what comes of them.

ghost use Rattle.std.specs.Prelude.{◌≡◌, ℕ, ◌<◌, List, [], ◌∷◌, ◌++◌, true, false, Some, Err, IfOk, IfErr, OnErr, OnOk, slice_get};
ghost use Rattle.type_table.specs.Table.{call_of, first_op};
ghost use Rattle.declared_types.specs.Declarations.{table_of};
ghost use Rattle.object_trait.specs.Object.{object_of};
ghost use Rattle.serial_order.specs.History.{summary, is_open};
ghost use Rattle.object_trait.specs.declared.event.EventKind.TheVariants as kind;
ghost use Rattle.serial_order.specs.Machine.{IsRun};
ghost use Rattle.serial_order.specs.Replay.{call_at, call_event, is_history_full};
ghost use Rattle.store_laws.specs.Stored.{objects, refusal_of, MayStep};
ghost use Rattle.store.specs.Calls.{NotesAnswer, HasCall, unnumbered, op_call_at, AnswersCall, GivesAnswer};
ghost use Rattle.serial_order.specs.Laws.{FirstOpIsLeast, AnswerMayFollow, MachineMayApply};
ghost use Rattle.serial_order.specs.After.{LogsAreCounted};
ghost use Rattle.store_laws.specs.Words.{as_event};
ghost use Rattle.serial_order.specs.declared.command.Command.TheVariants as command;

use crate::execution::{do_answer, execute};
use crate::room::has_room;
use crate::store::Store;
use declared_types::DeclaredType;
use object_calls::{Answer, Call};
use object_index::ObjectIndex;
use object_trait::{Event, EventKind, Recovery};
use serial_order::{
    Refusal, answer_may_follow, first_op_is_least, logs_are_counted, machine_may_apply,
};
use std::alloc::AllocError;
use store_laws::{
    op_moves, quiet_moves, room_after, rows_are_counted, rows_say_who_is_open, stays_kept,
    types_stay,
};
use type_table::Operation;

impl<R: Recovery> Store<R> {
    /// Calls, for transaction t, the call with this name at object x, as worker w.
    ///
    /// # Errors
    ///
    /// `NotOpen`, `NoObject`, `NoCall`, `HistoryFull`, or `NoMemory`, and the store is as it was.
    pub fn call(&mut self, w: u8, t: u32, x: u32, name: &str) -> Result<Answer, Refusal>
        ensures step { MayStep self.old w (command.Call t x name.now) result self.new }
        ensures answer { (c : ℕ) → call_at (slice_get (objects self.old) x) name.now ≡ Some c → NotesAnswer self.old w t x c result self.new }
    {
        self.call_bytes(w, t, x, name.as_bytes())
    }

    /// The call whose name has these bytes, as `call` with the name.
    ///
    /// # Errors
    ///
    /// As `call`.
    pub fn call_bytes(&mut self, w: u8, t: u32, x: u32, name: &[u8]) -> Result<Answer, Refusal>
        ensures step { MayStep self.old w (command.Call t x name.now) result self.new }
        ensures answer { (c : ℕ) → call_at (slice_get (objects self.old) x) name.now ≡ Some c → NotesAnswer self.old w t x c result self.new }
    {
        let call = self.named_call(t, x, name)?;
        self.answer(w, t, ObjectIndex::of(x), &call)
    }

    /// The call with this number at object x, as `call` with its name.
    ///
    /// # Errors
    ///
    /// As `call`; `NoCall` where no call there has this number.
    #[inline(always)]
    pub fn call_op(&mut self, w: u8, t: u32, x: u32, c: Operation) -> Result<Answer, Refusal>
        ensures step { (name : List ℕ) → call_at (slice_get (objects self.old) x) name ≡ Some c → MayStep self.old w (command.Call t x name) result self.new }
        ensures answer { NotesAnswer self.old w t x c result self.new }
        ensures unnumbered { ((name : List ℕ) → call_at (slice_get (objects self.old) x) name ≡ Some c → ⊥) → (result ≡ Err (unnumbered self.old t x)) × (self.new ≡ self.old) }
    {
        let call = self.numbered_call(t, x, c)?;
        self.answer(w, t, ObjectIndex::of(x), &call)
    }

    /// The number of the call with this name at object x: None where the object or the call isn't
    /// there. It takes no memory.
    pub fn call_of(&self, x: u32, name: &str) -> Option<Operation>
        ensures { result ≡ call_at (slice_get (objects self.now) x) name.now }
    {
        let object = self.objects.get(x as usize)?;
        object.declared().first_op(name.as_bytes())
    }

    /// The number of the call of operation k at object x: None where either isn't there.
    pub fn call_of_op(&self, x: u32, k: Operation) -> Option<Operation>
        ensures { result ≡ op_call_at (slice_get (objects self.now) x) k }
    {
        let object = self.objects.get(x as usize)?;
        call_of_operation(object.declared(), k)
    }

    /// The call with this name at object x, for a call of transaction t.
    ///
    /// # Errors
    ///
    /// `NotOpen`, `NoObject` or `NoCall`.
    pub(crate) fn named_call(&self, t: u32, x: u32, name: &[u8]) -> Result<Call, Refusal>
        ensures still_open { OnOk result (is_open (summary self.now.history) t ≡ true) }
        ensures few { OnOk result (x < 65536) }
        ensures call { IfOk result (λ call. HasCall (slice_get (objects self.now) x) call) }
        ensures named { IfOk result (λ call. call_at (slice_get (objects self.now) x) name.now ≡ Some call.first) }
        ensures refused { IfErr result (λ r. refusal_of self.now (command.Call t x name.now) ≡ Some r) }
    {
        let object = self.called_object(t, x)?;
        match self.calls[x as usize].by_name(object.declared(), name) {
            Some(call) => Ok(call),
            None => Err(Refusal::NoCall),
        }
    }

    /// The call with this number at object x, for a call of transaction t.
    ///
    /// # Errors
    ///
    /// `NotOpen`, `NoObject` or `NoCall`.
    #[inline(always)]
    pub(crate) fn numbered_call(&self, t: u32, x: u32, c: Operation) -> Result<Call, Refusal>
        ensures still_open { OnOk result (is_open (summary self.now.history) t ≡ true) }
        ensures few { OnOk result (x < 65536) }
        ensures call { IfOk result (λ call. (call.first ≡ c) × HasCall (slice_get (objects self.now) x) call) }
        ensures refused { IfErr result (λ r. (name : List ℕ) → call_at (slice_get (objects self.now) x) name ≡ Some c → refusal_of self.now (command.Call t x name) ≡ Some r) }
        ensures unnumbered { IfErr result (λ r. ((name : List ℕ) → call_at (slice_get (objects self.now) x) name ≡ Some c → ⊥) → r ≡ unnumbered self.now t x) }
    {
        let object = self.called_object(t, x)?;
        match self.calls[x as usize].by_number(object.declared(), c) {
            Some(call) => Ok(call),
            None => Err(Refusal::NoCall),
        }
    }

    /// Object x, for a call of transaction t.
    ///
    /// # Errors
    ///
    /// `NotOpen` or `NoObject`.
    #[inline(always)]
    fn called_object(&self, t: u32, x: u32) -> Result<&R, Refusal>
        ensures still_open { OnOk result (is_open (summary self.now.history) t ≡ true) }
        ensures few { OnOk result (x < 65536) }
        ensures there { IfOk result (λ object. slice_get (objects self.now) x ≡ Some (object_of (R.meaning object.now).checked)) }
        ensures refused { IfErr result (λ r. (name : List ℕ) → refusal_of self.now (command.Call t x name) ≡ Some r) }
        ensures unnumbered { IfErr result (λ r. r ≡ unnumbered self.now t x) }
    {
        rows_say_who_is_open();
        if !self.transactions.is_open(t) {
            return Err(Refusal::NotOpen);
        }
        let Some(object) = self.objects.get(x as usize) else {
            return Err(Refusal::NoObject);
        };
        Ok(object)
    }

    /// Answers t's call at object x, which has it.
    #[inline(always)]
    pub(crate) fn answer(
        &mut self,
        w: u8,
        t: u32,
        x: ObjectIndex,
        call: &Call,
    ) -> Result<Answer, Refusal>
        requires still_open { is_open (summary self.old.history) t ≡ true }
        requires call { HasCall (slice_get (objects self.old) x) call.now }
        ensures { AnswersCall self.old w t x call.now.first result self.new }
    {
        let answer = self.chosen(t, x, call);
        self.give(w, t, x, call, &answer)?;
        Ok(answer)
    }

    /// Gives t's call at object x the answer that it has there.
    #[inline(always)]
    pub(crate) fn give(
        &mut self,
        w: u8,
        t: u32,
        x: ObjectIndex,
        call: &Call,
        answer: &Answer,
    ) -> Result<(), Refusal>
        requires still_open { is_open (summary self.old.history) t ≡ true }
        requires call { HasCall (slice_get (objects self.old) x) call.now }
        requires chosen { call_event (slice_get (objects self.old) x) (summary self.old.history) x t (Some call.now.first) ≡ Some (as_event t x call.now.first answer.now) }
        ensures { GivesAnswer self.old w t x call.now.first answer.now result self.new }
    {
        rows_say_who_is_open();
        rows_are_counted();
        answers_are_known();
        quiet_moves();
        op_moves();
        stays_kept();
        room_after();
        types_stay();
        let opened = self.transactions.open_count();
        if !has_room(self.forgotten, &self.history, opened, 1, self.limits.events) {
            return Err(Refusal::HistoryFull);
        }
        if self.history.reserve(opened as usize + 1).is_err() {
            return Err(Refusal::NoMemory);
        }
        let done = do_answer(&mut self.objects, &mut self.transactions, t, x, answer);
        if done.is_err() {
            return Err(Refusal::NoMemory);
        }
        let kind = kind_of(answer, t, x.number(), call.first);
        self.history.push_reserved(Event { worker: w, kind });
        Ok(())
    }
}

impl<R: Recovery> Store<R> {
    /// Executes operation k of transaction t at object x again, whose event may follow.
    ///
    /// # Errors
    ///
    /// Memory was refused, and the store is as it was.
    pub(crate) fn execute_again(
        &mut self,
        w: u8,
        t: u32,
        x: u32,
        k: Operation,
    ) -> Result<(), AllocError>
        requires run { IsRun (objects self.old) (self.old.history ++ (record { worker = w; kind = kind.Op k t x }) ∷ []) }
        requires room { is_history_full self.old.limits self.old.history 1 ≡ false }
        ensures done { OnOk result (self.new ≡ record self.old { history = self.old.history ++ (record { worker = w; kind = kind.Op k t x }) ∷ [] }) }
        ensures back { OnErr result (self.new ≡ self.old) }
    {
        rows_say_who_is_open();
        rows_are_counted();
        machine_may_apply();
        logs_are_counted();
        quiet_moves();
        op_moves();
        stays_kept();
        room_after();
        types_stay();
        let opened = self.transactions.open_count();
        self.history.reserve(opened as usize + 1)?;
        let object = ObjectIndex::of(x);
        execute(&mut self.objects, &mut self.transactions, t, object, k)?;
        let kind = EventKind::Op { t, x, k };
        self.history.push_reserved(Event { worker: w, kind });
        Ok(())
    }
}

/// The number of the call of operation k of the type that is declared so.
fn call_of_operation(declared: &DeclaredType, k: Operation) -> Option<Operation>
    ensures { result ≡ first_op (table_of declared.now) (call_of (table_of declared.now) k) }
{
    let op = declared.op(k)?;
    declared.first_op(op.call.as_bytes())
}

/// What is known of the answer of a call: its event may follow, and its operation may be executed.
pub(crate) fn answers_are_known()
    ensures least { FirstOpIsLeast }
    ensures follows { AnswerMayFollow }
    ensures applies { MachineMayApply }
    ensures counted { LogsAreCounted }
{
    first_op_is_least();
    answer_may_follow();
    machine_may_apply();
    logs_are_counted();
}

/// The event of an answer of t's call c at object x.
fn kind_of(answer: &Answer, t: u32, x: u32, c: Operation) -> EventKind
    ensures { result ≡ as_event t x c answer.now }
{
    match *answer {
        Answer::Reply(k) => EventKind::Op { t, x, k },
        Answer::Busy(u) => EventKind::Busy {
            c: c.place(),
            t,
            x,
            u,
        },
        Answer::None => EventKind::None { t, x, c: c.place() },
    }
}
