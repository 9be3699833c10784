//! A whole transaction of one call, all at once: nothing is held meanwhile.

ghost use Rattle.std.specs.Prelude.{◌≡◌, ◌+◌, ◌≤◌, [], ◌∷◌, ◌++◌, slice_get, vec_len, vec_capacity};
ghost use Rattle.store_laws.specs.Stored.{objects};
ghost use Rattle.store.specs.Calls.{HasCall};
ghost use Rattle.store.specs.WholeCalls.{TransactsCall, TransactsNamed, TransactsNumbered};
ghost use Rattle.store_laws.specs.Moves.{StaysKept};
ghost use Rattle.store_laws.specs.Words.{AnswersAsDefined};
ghost use Rattle.store_laws.specs.Before.{RowsSayWhoIsOpen, RowsAreCounted, RowsAreFew};
ghost use Rattle.store_laws.specs.Events.{QuietMoves, BeginMoves, OpMoves, EndMoves, TypesStay, RoomAfter};

use crate::call::answers_are_known;
use crate::execution::commit_at;
use crate::room::has_room;
use crate::store::Store;
use object_calls::{Answer, Call, choose};
use object_index::ObjectIndex;
use object_trait::{Event, EventKind, Recovery};
use store_laws::{
    answers_as_defined, begin_moves, end_moves, op_moves, quiet_moves, room_after,
    rows_are_counted, rows_are_few, rows_say_who_is_open, stays_kept, types_stay,
};
use type_table::Operation;

impl<R: Recovery> Store<R> {
    /// A whole transaction of one call: it begins, as worker w, makes the call with this name at object x, and commits.
    /// None where the object or the call isn't there, where the call isn't replied to, or where there is no room or
    /// no memory: then nothing has changed.
    pub fn transact_bytes(&mut self, w: u8, x: u32, name: &[u8]) -> Option<Operation>
        ensures { TransactsNamed self.old w x name.now result self.new }
    {
        let Some(object) = self.objects.get(x as usize) else {
            return None;
        };
        match self.calls[x as usize].by_name(object.declared(), name) {
            Some(call) => self.transact(w, ObjectIndex::of(x), &call),
            None => None,
        }
    }

    /// The same of the call with this number at object x.
    #[inline(always)]
    pub fn transact_op(&mut self, w: u8, x: u32, c: Operation) -> Option<Operation>
        ensures { TransactsNumbered self.old w x c result self.new }
    {
        let Some(object) = self.objects.get(x as usize) else {
            return None;
        };
        match self.calls[x as usize].by_number(object.declared(), c) {
            Some(call) => self.transact(w, ObjectIndex::of(x), &call),
            None => None,
        }
    }

    /// The same of a call that object x has.
    #[inline(always)]
    fn transact(&mut self, w: u8, x: ObjectIndex, call: &Call) -> Option<Operation>
        requires { HasCall (slice_get (objects self.old) x) call.now }
        ensures { TransactsCall self.old w x call.now.first result self.new }
    {
        whole_is_known();
        answers_are_known();
        let opened = self.transactions.open_count();
        if opened >= self.limits.open
            || !has_room(self.forgotten, &self.history, opened, 3, self.limits.events)
        {
            return None;
        }
        let t = self.transactions.begun();
        let Answer::Reply(k) = choose(&self.objects[x.number() as usize], t, *call) else {
            return None;
        };
        if self.history.reserve(opened as usize + 3).is_err() {
            return None;
        }
        if self.transactions.reserve_begin().is_err() {
            return None;
        }
        if commit_at(&mut self.objects, t, x, k).is_err() {
            return None;
        }
        self.transactions.pass();
        self.committed += 1;
        push_whole(&mut self.history, w, t, x.number(), k);
        Some(k)
    }
}

/// What is known of a begin, an answer and an end.
fn whole_is_known()
    ensures says { RowsSayWhoIsOpen }
    ensures counted { RowsAreCounted }
    ensures few { RowsAreFew }
    ensures defined { AnswersAsDefined }
    ensures quiet { QuietMoves }
    ensures begins { BeginMoves }
    ensures works { OpMoves }
    ensures ends { EndMoves }
    ensures stays { StaysKept }
    ensures room { RoomAfter }
    ensures types { TypesStay }
{
    rows_say_who_is_open();
    rows_are_counted();
    rows_are_few();
    answers_as_defined();
    quiet_moves();
    begin_moves();
    op_moves();
    end_moves();
    stays_kept();
    room_after();
    types_stay();
}

/// Appends the events of a whole transaction t with operation k at object x.
#[inline(always)]
fn push_whole(history: &mut Vec<Event>, w: u8, t: u32, x: u32, k: Operation)
    requires { vec_len history.old + 3 ≤ vec_capacity history.old }
    ensures items { history.new.items ≡ ((history.old.items ++ (record { worker = w; kind = EventKind.Begin t }) ∷ []) ++ (record { worker = w; kind = EventKind.Op k t x }) ∷ []) ++ (record { worker = w; kind = EventKind.Commit t }) ∷ [] }
    ensures capacity { vec_capacity history.new ≡ vec_capacity history.old }
{
    let begin = EventKind::Begin { t };
    let op = EventKind::Op { t, x, k };
    let commit = EventKind::Commit { t };
    history.push_reserved(Event {
        worker: w,
        kind: begin,
    });
    history.push_reserved(Event {
        worker: w,
        kind: op,
    });
    history.push_reserved(Event {
        worker: w,
        kind: commit,
    });
}
