//! A durable store that one client asks: what each request does, and what it is answered.

ghost use Rattle.std.specs.Prelude.{◌≡◌, ℕ, IfOk, OnOk, MatchResult, ◌<◌, None, Option, length};
ghost use Rattle.journal.specs.Journal.{Clean, written, ShowsCommit, durable};
ghost use Rattle.durable_store.specs.Durable.{IsDurable};
ghost use Rattle.serving.specs.Follows.{LeavesWritten};
ghost use Rattle.durable_store.specs.Keys.{op_of_object};
ghost use Rattle.durable_store.specs.Names.{find_named};
ghost use Rattle.serving.specs.Means.{Means};
ghost use Rattle.serving.specs.Requests.{LetsGo, found_answer, TellsEvents, TellsObjects, TellsTypes, events_from, DoesRequest};
ghost use Rattle.request_text.specs.Requests.{asked_by};
ghost use Rattle.serving.specs.Lines.{is_taken};
ghost use Rattle.serving.specs.NextEpoch.{MayWait, late_answer};
ghost use Rattle.serving.specs.Keys.{kept_answered, kept_by, outcomes_after};
ghost use Rattle.serving.specs.Prepared.{prepared_after, prepared_answered};
ghost use Rattle.serving.specs.Names.{AreCarriedOver};
ghost use Rattle.serving.specs.Server.{DoesAsked, KeepsAll, StaysInEpoch, begins_until, full_at, life_of};
ghost use Rattle.serving.specs.Does.{DoesAbort, DoesBegin, DoesCall, DoesCommit, DoesRollback, done_or, is_epoch_full, DoesKept, DoesStats, DoesWould, reply_of};
ghost use Rattle.serving.specs.EpochEnd.{EndsEpoch, LeavesEnd};
ghost use Rattle.serving.specs.Epochs.{LeavesEpochs, WritesEpochs};

use crate::additions::{AdditionFault, Additions};
use crate::answer_line::{AnswerLine, Answered};
use crate::archive::Archive;
use crate::epoch::end_epoch;
use crate::extension::Extension;
use crate::names::{Carried, Names, denied_answer, not_open, unless_refused};
use crate::serve_fault::ServeFault;
use durable_store::{Denial, Durable, op_at};
use journal::JournalError;
use object_name::ObjectName;
use objects::Object;
use request_text::{
    Asked, ObjectWord, Request, RequestFault, TransactionName, calls_asked, file_words,
    objects_asked,
};
use serial_order::Refusal;
use sqlite_trees::store::Alter;
use std::alloc::{AllocError, Global};
use store::Store;
use type_table::{Name, Operation};

/// The most events of one answer.
const MOST_TOLD: u32 = 65_536;

/// A durable store that one client asks, by which names the client knows its transactions, with how many events more than it
/// began with an epoch is full, and what waits to be added where another begins.
pub struct Session<S: Alter> {
    pub store: Durable<S>,
    pub names: Names,
    pub most_events: u32,
    pub waiting: Option<Extension>,
}

impl<S: Alter> Session<S> {
    /// With how many events the present epoch is full: with none where an extension waits.
    pub(crate) fn full_at(&self) -> u32
        ensures { result ≡ full_at self.now }
    {
        match self.waiting {
            Some(_) => 0,
            None => self.names.full_with(self.most_events),
        }
    }

    /// With how many events no transaction begins: where all that is open goes over, with more than there can be.
    pub(crate) fn limit(&self) -> u32
        ensures { result ≡ begins_until self.now }
    {
        if self.store.is_strong() {
            u32::MAX
        } else {
            self.full_at()
        }
    }

    /// Answers a line: does what it asks, or reads what it asks to be added, which waits then.
    ///
    /// # Errors
    ///
    /// As `ask`.
    pub(crate) fn do_asked<N: Additions>(
        &mut self,
        alloc: Global,
        additions: &mut N,
        line: &[u8],
        asked: Asked,
    ) -> Result<Answered, ServeFault>
        requires sound { IsDurable S.Store self.old.store }
        requires asked { asked ≡ asked_by line.now }
        ensures does { IfOk result (λ a. DoesAsked S.Store self.old line.now a self.new) }
        ensures clean { Clean S.Store self.new.store.journal → Clean S.Store self.old.store.journal }
        ensures crash { LeavesWritten S.Store self.old.store self.new.store }
    {
        if is_taken(&self.waiting, asked.request) {
            let answer = self.take_more(alloc, additions, line, asked.tag)?;
            return Ok(Answered {
                tag: asked.tag,
                answer,
            });
        }
        let answer = self.answer(alloc, line, asked.request)?;
        Ok(Answered {
            tag: asked.tag,
            answer,
        })
    }

    /// Reads what a line asks to be added, where nothing waits so far.
    ///
    /// # Errors
    ///
    /// Memory was refused.
    fn take_more<N: Additions>(
        &mut self,
        alloc: Global,
        additions: &mut N,
        line: &[u8],
        tag: Option<Name>,
    ) -> Result<AnswerLine, ServeFault>
        requires { self.old.waiting ≡ None }
        ensures waits { IfOk result (λ a. MayWait tag a self.new.waiting) }
        ensures others { self.new ≡ record self.old { waiting = self.new.waiting } }
    {
        let paths = file_words(alloc, line)?;
        let so_far = self.store.store().object_count();
        match additions.read(alloc, so_far, self.store.names(), &paths) {
            Ok(added) => {
                self.waiting = Some(Extension { tag, added });
                Ok(AnswerLine::Waiting)
            }
            Err(AdditionFault::Refused { why }) => Ok(AnswerLine::NotAdded { why }),
            Err(AdditionFault::NoMemory) => Err(ServeFault::NoMemory),
        }
    }

    /// Does what a line asks, or answers its fault.
    ///
    /// # Errors
    ///
    /// As `ask`.
    pub(crate) fn answer(
        &mut self,
        alloc: Global,
        line: &[u8],
        asked: Result<Request, RequestFault>,
    ) -> Result<AnswerLine, JournalError>
        requires { IsDurable S.Store self.old.store }
        ensures does { IfOk result (λ a. MatchResult asked (λ request. DoesRequest (Clean S.Store self.new.store.journal) (begins_until self.old) self.old.names (written S.Store self.old.store.journal) self.old.store.prepared.items line.now self.old.store.store request a self.new.store.store)
            (λ fault. (a ≡ AnswerLine.Fault fault) × (self.new.store.store ≡ self.old.store.store))) }
        ensures keys { IfOk result (λ a. Clean S.Store self.new.store.journal → (written S.Store self.new.store.journal).outcomes ≡ outcomes_after (kept_answered asked a) (written S.Store self.old.store.journal).outcomes) }
        ensures rows { IfOk result (λ a. Clean S.Store self.new.store.journal → (written S.Store self.new.store.journal).prepared ≡ prepared_answered self.old.names asked a (written S.Store self.old.store.journal).prepared) }
        ensures stays_in_epoch { OnOk result (StaysInEpoch S.Store self.old self.new) }
        ensures waits { self.new.waiting ≡ self.old.waiting }
        ensures clean { Clean S.Store self.new.store.journal → Clean S.Store self.old.store.journal }
        ensures crash { LeavesWritten S.Store self.old.store self.new.store }
    {
        match asked {
            Ok(request) => self.ask(alloc, line, request),
            Err(fault) => Ok(AnswerLine::Fault { fault }),
        }
    }

    /// Does a request of this line. That a commit is done, and what was seen of committed states, is to be answered only
    /// once it is settled; that the end was asked for changes nothing here, nor that more objects were.
    ///
    /// # Errors
    ///
    /// The file failed, or memory was refused for it: the session isn't to be asked any more.
    pub fn ask(
        &mut self,
        alloc: Global,
        line: &[u8],
        request: Request,
    ) -> Result<AnswerLine, JournalError>
        requires { IsDurable S.Store self.old.store }
        ensures does { IfOk result (λ a. DoesRequest (Clean S.Store self.new.store.journal) (begins_until self.old) self.old.names (written S.Store self.old.store.journal) self.old.store.prepared.items line.now self.old.store.store request a self.new.store.store) }
        ensures keys { IfOk result (λ a. Clean S.Store self.new.store.journal → (written S.Store self.new.store.journal).outcomes ≡ outcomes_after (kept_by request a) (written S.Store self.old.store.journal).outcomes) }
        ensures rows { IfOk result (λ a. Clean S.Store self.new.store.journal → (written S.Store self.new.store.journal).prepared ≡ prepared_after self.old.names request a (written S.Store self.old.store.journal).prepared) }
        ensures stays_in_epoch { OnOk result (StaysInEpoch S.Store self.old self.new) }
        ensures waits { self.new.waiting ≡ self.old.waiting }
        ensures clean { Clean S.Store self.new.store.journal → Clean S.Store self.old.store.journal }
        ensures crash { LeavesWritten S.Store self.old.store self.new.store }
    {
        match request {
            Request::Begin => self.begin(),
            Request::Call { t, x, call } => {
                let x = self.number_of(x);
                self.call(t, x, call)
            }
            Request::Commit { t } => self.commit(t),
            Request::CommitUnder { t, key } => self.commit_under(alloc, t, key),
            Request::Abort { t } => self.abort(t),
            Request::Rollback { t, count } => self.rollback(t, count),
            Request::Objects => self.objects(alloc),
            Request::Types => self.types(alloc),
            Request::Events { from, count } => self.events(alloc, from, count),
            Request::Would { t, x, call } => Ok(self.would(t, self.number_of(x), call)),
            Request::Kept { x } => Ok(self.kept(self.number_of(x))),
            Request::Peek => {
                let calls = calls_asked(alloc, line)?;
                self.peek(alloc, &calls)
            }
            Request::Committed => {
                let objects = objects_asked(alloc, line)?;
                self.committed(alloc, &objects)
            }
            Request::Do => self.do_calls(alloc, line),
            Request::DoUnder { key } => {
                let calls = calls_asked(alloc, line)?;
                self.attempt_under(alloc, &calls, key)
            }
            Request::Outcome { key } => self.outcome(alloc, key),
            Request::Prepare { t, key, until } => self.prepare(alloc, t, key, until),
            Request::Decide { key, decision } => self.decide(alloc, key, decision),
            Request::Prepared => self.held(alloc),
            Request::Find { name } => Ok(self.find(name)),
            Request::Stats => Ok(self.counts()),
            Request::Extend => Ok(AnswerLine::Draining),
            Request::End => Ok(AnswerLine::Done),
        }
    }

    /// Begins a transaction, but for an epoch that is full where what is open can't go over.
    pub(crate) fn begin(&mut self) -> Result<AnswerLine, JournalError>
        requires { IsDurable S.Store self.old.store }
        ensures does { IfOk result (λ a. DoesBegin (begins_until self.old) self.old.names.life self.old.store.store a self.new.store.store) }
        ensures keyless { OnOk result (KeepsAll S.Store self.old.store self.new.store) }
        ensures stays_in_epoch { OnOk result (StaysInEpoch S.Store self.old self.new) }
        ensures waits { self.new.waiting ≡ self.old.waiting }
        ensures clean { Clean S.Store self.new.store.journal → Clean S.Store self.old.store.journal }
        ensures crash { LeavesWritten S.Store self.old.store self.new.store }
    {
        let limit = self.limit();
        if is_full(self.store.store(), limit) {
            return Ok(AnswerLine::Draining);
        }
        match self.store.begin()? {
            Ok(number) => {
                let t = TransactionName {
                    life: self.names.life(),
                    number,
                };
                Ok(AnswerLine::Begun { t })
            }
            Err(refusal) => Ok(AnswerLine::Refused { refusal }),
        }
    }

    /// Makes a call of a transaction.
    pub(crate) fn call(
        &mut self,
        t: TransactionName,
        x: u32,
        name: Name,
    ) -> Result<AnswerLine, JournalError>
        requires { IsDurable S.Store self.old.store }
        ensures does { IfOk result (λ a. DoesCall self.old.names self.old.store.prepared.items self.old.store.store t x name a self.new.store.store) }
        ensures keyless { OnOk result (KeepsAll S.Store self.old.store self.new.store) }
        ensures stays_in_epoch { OnOk result (StaysInEpoch S.Store self.old self.new) }
        ensures waits { self.new.waiting ≡ self.old.waiting }
        ensures clean { Clean S.Store self.new.store.journal → Clean S.Store self.old.store.journal }
        ensures crash { LeavesWritten S.Store self.old.store self.new.store }
    {
        let Some(number) = self.names.number_of(t) else {
            return Ok(not_open());
        };
        let answer = self.store.call(number, x, name.as_bytes())?;
        Ok(self.call_answer(x, &answer))
    }

    /// Commits a transaction. It is answered only once it is settled.
    pub(crate) fn commit(&mut self, t: TransactionName) -> Result<AnswerLine, JournalError>
        requires { IsDurable S.Store self.old.store }
        ensures does { IfOk result (λ a. DoesCommit self.old.names self.old.store.prepared.items self.old.store.store t a self.new.store.store) }
        ensures keyless { OnOk result (KeepsAll S.Store self.old.store self.new.store) }
        ensures stays_in_epoch { OnOk result (StaysInEpoch S.Store self.old self.new) }
        ensures waits { self.new.waiting ≡ self.old.waiting }
        ensures clean { Clean S.Store self.new.store.journal → Clean S.Store self.old.store.journal }
        ensures crash { LeavesWritten S.Store self.old.store self.new.store }
    {
        let Some(number) = self.names.number_of(t) else {
            return Ok(not_open());
        };
        let ended = self.store.commit(number)?;
        Ok(done_or(AnswerLine::Committed, ended))
    }

    /// Aborts a transaction.
    pub(crate) fn abort(&mut self, t: TransactionName) -> Result<AnswerLine, JournalError>
        requires { IsDurable S.Store self.old.store }
        ensures does { IfOk result (λ a. DoesAbort self.old.names self.old.store.prepared.items self.old.store.store t a self.new.store.store) }
        ensures keyless { OnOk result (KeepsAll S.Store self.old.store self.new.store) }
        ensures stays_in_epoch { OnOk result (StaysInEpoch S.Store self.old self.new) }
        ensures waits { self.new.waiting ≡ self.old.waiting }
        ensures clean { Clean S.Store self.new.store.journal → Clean S.Store self.old.store.journal }
        ensures crash { LeavesWritten S.Store self.old.store self.new.store }
    {
        let Some(number) = self.names.number_of(t) else {
            return Ok(not_open());
        };
        let ended = self.store.abort(number)?;
        Ok(done_or(AnswerLine::Done, ended))
    }

    /// Takes back the last operations of a transaction.
    pub(crate) fn rollback(
        &mut self,
        t: TransactionName,
        count: u32,
    ) -> Result<AnswerLine, JournalError>
        requires { IsDurable S.Store self.old.store }
        ensures does { IfOk result (λ a. DoesRollback self.old.names self.old.store.prepared.items self.old.store.store t count a self.new.store.store) }
        ensures keyless { OnOk result (KeepsAll S.Store self.old.store self.new.store) }
        ensures stays_in_epoch { OnOk result (StaysInEpoch S.Store self.old self.new) }
        ensures waits { self.new.waiting ≡ self.old.waiting }
        ensures clean { Clean S.Store self.new.store.journal → Clean S.Store self.old.store.journal }
        ensures crash { LeavesWritten S.Store self.old.store self.new.store }
    {
        let Some(number) = self.names.number_of(t) else {
            return Ok(not_open());
        };
        let struck = self.store.rollback(number, count)?;
        Ok(done_or(AnswerLine::Done, struck))
    }

    /// What a call would be answered now.
    pub(crate) fn would(&self, t: TransactionName, x: u32, name: Name) -> AnswerLine
        ensures { DoesWould self.now.names self.now.store.prepared.items self.now.store.store t x name result self.now.store.store }
    {
        let Some(number) = self.names.number_of(t) else {
            return not_open();
        };
        if self.store.is_prepared(number) {
            return AnswerLine::IsPrepared;
        }
        let answer = self.store.store().would_bytes(number, x, name.as_bytes());
        self.call_answer(x, &unless_refused(answer))
    }

    /// The kept state of the object at x.
    pub(crate) fn kept(&self, x: u32) -> AnswerLine
        ensures { DoesKept self.now.store.store x result self.now.store.store }
    {
        match self.store.store().kept(x) {
            Some(state) => AnswerLine::State { state },
            None => AnswerLine::Refused {
                refusal: Refusal::NoObject,
            },
        }
    }

    /// The number that a word says. A name that no object has says a number that none has.
    pub(crate) fn number_of(&self, x: ObjectWord) -> u32
        requires { IsDurable S.Store self.now.store }
        ensures { Means (Clean S.Store self.now.store.journal) (written S.Store self.now.store.journal).objects x result }
    {
        match x {
            ObjectWord::Number { x } => x,
            ObjectWord::Name { name } => {
                let count = self.store.store().object_count();
                self.store.find(name).unwrap_or(count)
            }
        }
    }

    /// The number of the object that has this name.
    fn find(&self, name: ObjectName) -> AnswerLine
        requires { IsDurable S.Store self.now.store }
        ensures { (found : Option ℕ) × (result ≡ found_answer found) × (Clean S.Store self.now.store.journal → found ≡ find_named (written S.Store self.now.store.journal).objects name) }
    {
        match self.store.find(name) {
            Some(x) => AnswerLine::Found { x },
            None => AnswerLine::Refused {
                refusal: Refusal::NoObject,
            },
        }
    }

    /// How many events and transactions there are, and how many of these are open and prepared.
    pub(crate) fn counts(&self) -> AnswerLine
        ensures { DoesStats self.now.store.prepared.items self.now.store.store result self.now.store.store }
    {
        let store = self.store.store();
        AnswerLine::Counts {
            events: store.event_count(),
            begun: store.begun(),
            open: store.open_count(),
            prepared: self.store.prepared().len(),
        }
    }

    /// The objects. What was written becomes durable before.
    ///
    /// # Errors
    ///
    /// As `ask`.
    pub(crate) fn objects(&mut self, alloc: Global) -> Result<AnswerLine, JournalError>
        requires { IsDurable S.Store self.old.store }
        ensures tells { IfOk result (λ a. TellsObjects (Clean S.Store self.new.store.journal) a (written S.Store self.old.store.journal).objects) }
        ensures lets_go { OnOk result (LetsGo self.old.store.store self.new.store.store) }
        ensures keyless { OnOk result (KeepsAll S.Store self.old.store self.new.store) }
        ensures stays_in_epoch { OnOk result (StaysInEpoch S.Store self.old self.new) }
        ensures waits { self.new.waiting ≡ self.old.waiting }
        ensures clean { Clean S.Store self.new.store.journal → Clean S.Store self.old.store.journal }
        ensures crash { LeavesWritten S.Store self.old.store self.new.store }
    {
        self.settle()?;
        let objects = self.store.objects(alloc)?;
        Ok(AnswerLine::Objects { objects })
    }

    /// The texts of the types. What was written becomes durable before.
    ///
    /// # Errors
    ///
    /// As `ask`.
    pub(crate) fn types(&mut self, alloc: Global) -> Result<AnswerLine, JournalError>
        requires { IsDurable S.Store self.old.store }
        ensures tells { IfOk result (λ a. TellsTypes (Clean S.Store self.new.store.journal) a (written S.Store self.old.store.journal).types) }
        ensures lets_go { OnOk result (LetsGo self.old.store.store self.new.store.store) }
        ensures keyless { OnOk result (KeepsAll S.Store self.old.store self.new.store) }
        ensures stays_in_epoch { OnOk result (StaysInEpoch S.Store self.old self.new) }
        ensures waits { self.new.waiting ≡ self.old.waiting }
        ensures clean { Clean S.Store self.new.store.journal → Clean S.Store self.old.store.journal }
        ensures crash { LeavesWritten S.Store self.old.store self.new.store }
    {
        self.settle()?;
        let texts = self.store.types(alloc)?;
        Ok(AnswerLine::Types { texts })
    }

    /// This many events from a position on, and at most 65,536. What was written becomes durable before.
    ///
    /// # Errors
    ///
    /// As `ask`.
    pub(crate) fn events(
        &mut self,
        alloc: Global,
        from: u32,
        count: u32,
    ) -> Result<AnswerLine, JournalError>
        requires { IsDurable S.Store self.old.store }
        ensures tells { IfOk result (λ a. TellsEvents (Clean S.Store self.new.store.journal) a (events_from self.old.store.store from count)) }
        ensures lets_go { OnOk result (LetsGo self.old.store.store self.new.store.store) }
        ensures keyless { OnOk result (KeepsAll S.Store self.old.store self.new.store) }
        ensures stays_in_epoch { OnOk result (StaysInEpoch S.Store self.old self.new) }
        ensures waits { self.new.waiting ≡ self.old.waiting }
        ensures clean { Clean S.Store self.new.store.journal → Clean S.Store self.old.store.journal }
        ensures crash { LeavesWritten S.Store self.old.store self.new.store }
    {
        self.settle()?;
        let most = count.min(MOST_TOLD) as usize;
        let events = self.store.events(alloc, u64::from(from), most)?;
        Ok(AnswerLine::Events { events })
    }

    /// Makes durable all that was written.
    ///
    /// # Errors
    ///
    /// The file failed, or memory was refused for it: the session isn't to be asked any more.
    pub(crate) fn settle(&mut self) -> Result<(), JournalError>
        requires { IsDurable S.Store self.old.store }
        ensures keyless { OnOk result (KeepsAll S.Store self.old.store self.new.store) }
        ensures stays_in_epoch { OnOk result (StaysInEpoch S.Store self.old self.new) }
        ensures waits { self.new.waiting ≡ self.old.waiting }
        ensures lets_go { OnOk result (LetsGo self.old.store.store self.new.store.store) }
        ensures settled { OnOk result (Clean S.Store self.new.store.journal → durable S.Store self.new.store.journal ≡ written S.Store self.new.store.journal) }
        ensures shows { OnOk result (ShowsCommit S.Store self.new.store.journal) }
        ensures same { OnOk result (Clean S.Store self.new.store.journal → written S.Store self.new.store.journal ≡ written S.Store self.old.store.journal) }
        ensures clean { Clean S.Store self.new.store.journal → Clean S.Store self.old.store.journal }
        ensures crash { LeavesWritten S.Store self.old.store self.new.store }
    {
        self.store.settle()
    }

    /// Gives the history of the epoch to the archive, and begins another one, all of it durable: with the objects of what waits,
    /// which is answered then. What is open goes over where each yes is strong, and else is aborted before if it isn't prepared.
    ///
    /// # Errors
    ///
    /// As `end_epoch`.
    pub(crate) fn begin_epoch<A: Archive>(
        self,
        alloc: Global,
        archive: &mut A,
    ) -> (Session<S>, Result<Option<Answered>, ServeFault>)
        requires { IsDurable S.Store self.store }
        ensures late { IfOk result.1 (λ late. late ≡ late_answer self.waiting self.store.store) }
        ensures sound { OnOk result.1 (IsDurable S.Store result.0.store) }
        ensures ends { OnOk result.1 (EndsEpoch S.Store self.store.strong self.waiting self.store result.0.store) }
        ensures writes { OnOk result.1 (WritesEpochs S.Store self.store result.0.store (A.kept archive.old) (A.kept archive.new)) }
        ensures shows { OnOk result.1 (ShowsCommit S.Store result.0.store.journal) }
        ensures settled { OnOk result.1 (Clean S.Store result.0.store.journal → durable S.Store result.0.store.journal ≡ written S.Store result.0.store.journal) }
        ensures left { LeavesEnd S.Store self.store.strong self.waiting self.store result.0.store }
        ensures named { result.0.names.life ≡ life_of result.0.store }
        ensures carried { OnOk result.1 (AreCarriedOver self.names self.store.strong self.store.store.history self.store.prepared.items result.0.names.carried) }
        ensures counted { OnOk result.1 (result.0.names.begun_with ≡ length result.0.store.store.history) }
        ensures most { result.0.most_events ≡ self.most_events }
        ensures none_waits { result.0.waiting ≡ None }
        ensures clean { Clean S.Store result.0.store.journal → Clean S.Store self.store.journal }
        ensures crash { LeavesEpochs S.Store self.store result.0.store (A.kept archive.old) (A.kept archive.new) }
    {
        let Session {
            store,
            names,
            most_events,
            waiting,
        } = self;
        let carried = match carried_over(alloc, &store, &names) {
            Ok(carried) => carried,
            Err(AllocError) => {
                let session = begun(store, Vec::new(alloc), most_events);
                return (session, Err(ServeFault::NoMemory));
            }
        };
        let goes = store.is_strong();
        let (store, ended) = end_epoch(alloc, store, goes, waiting, archive);
        (begun(store, carried, most_events), ended)
    }
}

/// What goes over from this store, each by the name by which it is known.
///
/// # Errors
///
/// Memory was refused.
fn carried_over<S: Alter>(
    alloc: Global,
    store: &Durable<S>,
    names: &Names,
) -> Result<Vec<Carried>, AllocError>
    ensures { IfOk result (λ carried. AreCarriedOver names.now store.now.strong store.now.store.history store.now.prepared.items carried.items) }
{
    let those = store.going_over(alloc)?;
    names.carried_over(alloc, &those)
}

/// A session of this store, into whose life these were carried.
fn begun<S: Alter>(store: Durable<S>, carried: Vec<Carried>, most_events: u32) -> Session<S>
    ensures store { result.store ≡ store }
    ensures life { result.names.life ≡ life_of store }
    ensures carried { result.names.carried ≡ carried.items }
    ensures counted { result.names.begun_with ≡ length store.store.history }
    ensures most { result.most_events ≡ most_events }
    ensures none_waits { result.waiting ≡ None }
{
    let life = store.life();
    let begun_with = store.store().event_count();
    Session {
        store,
        names: Names::new(life, carried, begun_with),
        most_events,
        waiting: None,
    }
}

/// Whether a line asks for more objects, which may wait as nothing waits so far.
fn is_taken(waiting: &Option<Extension>, asked: Result<Request, RequestFault>) -> bool
    ensures { result ≡ is_taken waiting.now asked }
{
    match waiting {
        Some(_) => false,
        None => matches!(asked, Ok(Request::Extend)),
    }
}

/// Whether an epoch is full with as many events as this one has.
pub(crate) fn is_full(store: &Store<Object>, most_events: u32) -> bool
    ensures { result ≡ is_epoch_full most_events store.now }
{
    most_events <= store.event_count()
}

/// What is answered where a request is done, or denied.
fn done_or(done: AnswerLine, answer: Result<(), Denial>) -> AnswerLine
    ensures { result ≡ done_or done answer }
{
    match answer {
        Ok(()) => done,
        Err(why) => denied_answer(why),
    }
}

/// The reply of operation k of the object at x.
pub(crate) fn reply_at(store: &Store<Object>, x: u32, k: Operation) -> AnswerLine
    ensures { result ≡ reply_of (op_of_object store.now x k) }
{
    match op_at(store, x, k) {
        Some(op) => AnswerLine::Reply { reply: op.reply },
        None => AnswerLine::Nothing,
    }
}
