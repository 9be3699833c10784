//! A worker: its jobs, what it noted, and one turn of it, which is one call of the store.

ghost use Rattle.std.specs.Prelude.{◌≡◌, ◌+◌, ◌<◌, ◌≤◌, ◌^◌, ◌++◌, ◌∷◌, [], ℕ, List, true, length, Some, is_some, slice_get, vec_len, vec_capacity, ◌==◌, map, IfOk};
ghost use Rattle.object_trait.specs.declared.event.Event.{Event as EventValue};
ghost use Rattle.object_trait.specs.declared.event.EventKind.{EventKind as EventKindValue};
ghost use Rattle.object_trait.specs.declared.event.EventKind.TheVariants.{Abort};
ghost use Rattle.serial_order.specs.History.{summary, is_open};
ghost use Rattle.worker_turns.specs.Progress.{current_job, open_in_phase, IsUnstarted, broken_before};
ghost use Rattle.worker_turns.specs.Turns.{HasOpen, Turns, Begins, CallsOrCommits, Calls, Commits, GivesBack, RefusesJob, StoreNotes, receipt, ends};
ghost use Rattle.jobs_text.specs.Jobs.{calls_in};
ghost use Rattle.worker_turns.specs.declared.outcome.Outcome.TheVariants.{NotRun};
ghost use Rattle.worker_turns.specs.declared.phase.Phase.TheVariants as phase;

use crate::outcome::{Outcome, Receipt, Report};
use crate::phase::Phase;
use jobs_text::Job;
use object_trait::{Event, EventKind, Recovery};
use serial_order::Refusal;
use std::alloc::{AllocError, Global};
use std::marker::Model;
use store::{Answer, Store};
use type_table::Name;

/// The receipts for which there is room before a begin and before a call: its own, and that of the
/// transaction's end.
const PLACES: usize = 2;

/// A worker with the jobs that it does, one after another, each tried at most `tries` times.
///
/// Contracts see its jobs, what it noted, and where it is.
#[derive(Drop)]
pub struct Worker {
    pub(crate) jobs: Vec<Job>,
    pub(crate) tries: u8,
    // How many tries of the job that it does were broken.
    pub(crate) broken: u8,
    pub(crate) receipts: Vec<Receipt>,
    pub(crate) outcomes: Vec<Outcome>,
    pub(crate) phase: Phase,
}

impl Model for Worker {
    ghost use Rattle.std.specs.Prelude.{vec_len, vec_capacity};
    ghost use Rattle.jobs_text.specs.Jobs.{calls_in};
    ghost use Rattle.worker_turns.specs.Progress.{Progress};
    ghost use Rattle.worker_turns.specs.Room.{HasRoom};

    ghost Value = { Progress };

    ghost view = { λ w. record {
      jobs = calls_in w.jobs;
      tries = w.tries;
      receipts = w.receipts.items;
      outcomes = w.outcomes.items;
      broken = w.broken;
      phase = w.phase;
    } };

    ghost invariant = { λ w. HasRoom (vec_len w.jobs) (vec_len w.receipts) (vec_capacity w.receipts) (vec_len w.outcomes) (vec_capacity w.outcomes) w.broken w.tries w.phase };
}

impl Worker {
    /// A worker that did nothing. It has room for the outcomes of its jobs.
    ///
    /// # Errors
    ///
    /// Memory was refused.
    pub fn new(alloc: Global, jobs: Vec<Job>, tries: u8) -> Result<Worker, AllocError>
        requires { 0 < tries }
        ensures jobs { IfOk result (λ w. w.jobs ≡ calls_in jobs) }
        ensures tries { IfOk result (λ w. w.tries ≡ tries) }
        ensures fresh { IfOk result IsUnstarted }
    {
        let outcomes = Vec::with_capacity(alloc, jobs.len())?;
        Ok(Worker {
            jobs,
            tries,
            receipts: Vec::new(alloc),
            outcomes,
            broken: 0,
            phase: Phase::Idle,
        })
    }

    /// Whether each of its jobs has an outcome.
    pub fn is_at_end(&self) -> bool
        ensures { result ≡ (length self.now.outcomes == length self.now.jobs) }
    {
        self.outcomes.len() == self.jobs.len()
    }

    /// How many tries of its job were broken, where it is before another; in the midst of a try
    /// none.
    pub fn broken_before(&self) -> u8
        ensures { result ≡ broken_before self.now }
    {
        match self.phase {
            Phase::Idle => self.broken,
            Phase::Going { .. } | Phase::Breaking { .. } | Phase::Refusing { .. } => 0,
        }
    }

    /// What it noted.
    pub fn into_report(self) -> Report
        ensures receipts { result.receipts.items ≡ self.receipts }
        ensures outcomes { result.outcomes.items ≡ self.outcomes }
    {
        let Worker {
            jobs: _,
            tries: _,
            receipts,
            outcomes,
            broken: _,
            phase: _,
        } = self;
        Report { receipts, outcomes }
    }

    /// The report of a worker that did nothing, since it wasn't started: none of its jobs was run.
    pub fn not_run(mut self) -> Report
        requires { IsUnstarted self }
        ensures receipts { result.receipts.items ≡ [] }
        ensures outcomes { result.outcomes.items ≡ map (λ job. NotRun) self.jobs }
    {
        for _ in 0..self.jobs.len() {
            self.outcomes.push_reserved(Outcome::NotRun);
        }
        self.into_report()
    }

    /// One turn, as worker w: one call of the store. A job has its outcome with its last turn.
    pub fn turn<R: Recovery>(&mut self, store: &mut Store<R>, w: u8)
        requires going { length self.old.outcomes < length self.old.jobs }
        requires still_open { HasOpen store.old.history (open_in_phase self.old.phase) }
        ensures { Turns store.old w self.old store.new self.new }
    {
        match self.phase {
            Phase::Idle => self.begin(store, w),
            Phase::Going { t, done } => self.call_or_commit(store, w, t, done),
            Phase::Breaking { t, done: _ } => self.give_back(store, w, t),
            Phase::Refusing {
                t,
                done: _,
                refusal,
            } => self.refuse(store, w, t, refusal),
        }
    }

    /// Begins a transaction, where there is room for its receipt and that of the transaction's end.
    fn begin<R: Recovery>(&mut self, store: &mut Store<R>, w: u8)
        requires going { length self.old.outcomes < length self.old.jobs }
        requires phase { self.old.phase ≡ phase.Idle }
        ensures { Begins store.old w self.old store.new self.new }
    {
        if self.receipts.reserve(PLACES).is_err() {
            self.end(Outcome::Refused(Refusal::NoMemory));
            return;
        }
        let position = store.event_count() as usize;
        match store.begin(w) {
            Ok(t) => {
                take(&mut self.receipts, position, w, EventKind::Begin { t });
                self.phase = Phase::Going { t, done: 0 };
            }
            Err(refusal) => self.end(Outcome::Refused(refusal)),
        }
    }

    /// Makes the next call of t, or commits it where there is none.
    fn call_or_commit<R: Recovery>(&mut self, store: &mut Store<R>, w: u8, t: u32, done: usize)
        requires going { length self.old.outcomes < length self.old.jobs }
        requires phase { self.old.phase ≡ phase.Going t done }
        requires still_open { is_open (summary store.old.history) t ≡ true }
        ensures { CallsOrCommits t done (slice_get (current_job self.old) done) store.old w self.old store.new self.new }
    {
        match self.next_call(done) {
            Some((x, name)) => self.call(store, w, t, done, x, name),
            None => self.commit(store, w, t),
        }
    }

    /// The call after the first ones, this many, of the job that is being done.
    fn next_call(&self, done: usize) -> Option<(u32, Name)>
        requires { length self.now.outcomes < length self.now.jobs }
        ensures call { result ≡ slice_get (current_job self.now) done }
        ensures few { is_some result ≡ true → done < 2 ^ 63 }
    {
        let job = &self.jobs[self.outcomes.len()];
        job.calls.get(done).copied()
    }

    /// Makes a call of t, where there is room for its receipt and that of the transaction's end; else
    /// aborts t.
    fn call<R: Recovery>(
        &mut self,
        store: &mut Store<R>,
        w: u8,
        t: u32,
        done: usize,
        x: u32,
        name: Name,
    )
        requires going { length self.old.outcomes < length self.old.jobs }
        requires phase { self.old.phase ≡ phase.Going t done }
        requires few { done < 2 ^ 63 }
        requires still_open { is_open (summary store.old.history) t ≡ true }
        ensures { Calls t done (x, name) store.old w self.old store.new self.new }
    {
        if self.receipts.reserve(PLACES).is_err() {
            self.refuse(store, w, t, Refusal::NoMemory);
            return;
        }
        let position = store.event_count() as usize;
        match store.call_bytes(w, t, x, name.as_bytes()) {
            Ok(answer) => {
                self.phase = match answer {
                    Answer::Reply(k) => {
                        take(&mut self.receipts, position, w, EventKind::Op { t, x, k });
                        Phase::Going { t, done: done + 1 }
                    }
                    Answer::Busy(_) | Answer::None => {
                        note(&mut self.receipts, store);
                        Phase::Breaking { t, done }
                    }
                };
            }
            Err(refusal) => self.phase = Phase::Refusing { t, done, refusal },
        }
    }

    /// Commits t, with which its job is done.
    fn commit<R: Recovery>(&mut self, store: &mut Store<R>, w: u8, t: u32)
        requires going { length self.old.outcomes < length self.old.jobs }
        requires phase { open_in_phase self.old.phase ≡ Some t }
        requires still_open { is_open (summary store.old.history) t ≡ true }
        ensures { Commits t store.old w self.old store.new self.new }
    {
        self.phase = Phase::Idle;
        let position = store.event_count() as usize;
        // t is open, so it isn't refused
        let _ = store.commit(w, t);
        take(&mut self.receipts, position, w, EventKind::Commit { t });
        self.end(Outcome::Committed(t));
    }

    /// Aborts t, whose try was broken, and gives its job up where that was the last one.
    fn give_back<R: Recovery>(&mut self, store: &mut Store<R>, w: u8, t: u32)
        requires going { length self.old.outcomes < length self.old.jobs }
        requires phase { open_in_phase self.old.phase ≡ Some t }
        requires still_open { is_open (summary store.old.history) t ≡ true }
        ensures { GivesBack t store.old w self.old store.new self.new }
    {
        self.phase = Phase::Idle;
        abort(&mut self.receipts, store, w, t);
        if self.tries - self.broken > 1 {
            self.broken += 1;
        } else {
            self.end(Outcome::GaveUp);
        }
    }

    /// Aborts t, of which a call was refused, and so its job is.
    fn refuse<R: Recovery>(&mut self, store: &mut Store<R>, w: u8, t: u32, refusal: Refusal)
        requires going { length self.old.outcomes < length self.old.jobs }
        requires phase { open_in_phase self.old.phase ≡ Some t }
        requires still_open { is_open (summary store.old.history) t ≡ true }
        ensures { RefusesJob t refusal store.old w self.old store.new self.new }
    {
        self.phase = Phase::Idle;
        abort(&mut self.receipts, store, w, t);
        self.end(Outcome::Refused(refusal));
    }

    /// The job that is being done has this outcome.
    fn end(&mut self, outcome: Outcome)
        requires { length self.old.outcomes < length self.old.jobs }
        ensures { self.new ≡ ends outcome self.old }
    {
        self.outcomes.push_reserved(outcome);
        self.broken = 0;
        self.phase = Phase::Idle;
    }
}

/// Aborts t, which is open, and takes the receipt.
fn abort<R: Recovery>(receipts: &mut Vec<Receipt>, store: &mut Store<R>, w: u8, t: u32)
    requires room { vec_len receipts.old < vec_capacity receipts.old }
    requires still_open { is_open (summary store.old.history) t ≡ true }
    ensures makes { StoreNotes store.old w (Abort t) store.new }
    ensures gets { receipts.new.items ≡ receipts.old.items ++ receipt store.old.history w (Abort t) ∷ [] }
{
    let position = store.event_count() as usize;
    // t is open, so it isn't refused
    let _ = store.abort(w, t);
    take(receipts, position, w, EventKind::Abort { t });
}

/// Takes the receipt of an event that worker w made at this place. It is built anew: the history's copy
/// has just been written in parts, and the processor would wait for these.
fn take(receipts: &mut Vec<Receipt>, position: usize, w: u8, kind: EventKind)
    requires { vec_len receipts.old < vec_capacity receipts.old }
    ensures gets { receipts.new.items ≡ receipts.old.items ++ (record { position = position; event = record { worker = w; kind = kind } }) ∷ [] }
    ensures room { vec_capacity receipts.new ≡ vec_capacity receipts.old }
{
    receipts.push_reserved(Receipt {
        position,
        event: Event { worker: w, kind },
    });
}

/// Takes the receipt of the last event of a store, which isn't forgotten.
fn note<R: Recovery>(receipts: &mut Vec<Receipt>, store: &Store<R>)
    requires { vec_len receipts.old < vec_capacity receipts.old }
    ensures gets { (H : List EventValue) (w : ℕ) (happened : EventKindValue) → store.now.history ≡ H ++ (record { worker = w; kind = happened }) ∷ []
        → store.now.forgotten ≤ length H → receipts.new.items ≡ receipts.old.items ++ receipt H w happened ∷ [] }
    ensures one { vec_len receipts.new ≤ vec_len receipts.old + 1 }
    ensures room { vec_capacity receipts.new ≡ vec_capacity receipts.old }
{
    if let Some(event) = store.history().last() {
        receipts.push_reserved(Receipt {
            position: store.event_count() as usize - 1,
            event: *event,
        });
    }
}
