//! What is under the lock: the store, its workers, and how many of them were let in.

ghost use Rattle.std.specs.Prelude.{◌≡◌, ◌≤◌, [], length, true, false, map, vec_len, vec_capacity};
ghost use Rattle.serial_order.specs.Machine.{IsRun};
ghost use Rattle.store_laws.specs.Stored.{objects};
ghost use Rattle.store_limits.specs.Standard.{standard};
ghost use Rattle.workers.specs.SharedCalls.{IsAtStart, LetsIn, TakesTurnIfAny, IsGoing, HaveEnded, AreGoing, LeavesOthers, broken_at};
ghost use Rattle.workers.specs.SharedState.{Start, SharedState, HasEnded};
ghost use Rattle.workers.specs.Worked.{HasWorked};

use crate::laws::{ending_is_worked, letting_in_is_kept, start_is_kept, turns_are_kept};
use object_trait::Recovery;
use std::marker::{Brand, Model, PhantomData};
use store::Store;
use worker_turns::{Report, Worker, turns_are_counted};

/// How it was at the start. A lock forgets what is known of the value under it but for the value's
/// type: so the type names the start, and whoever takes the lock knows what came of it.
pub trait HasStart {
    ghost start: { Start };
}

impl HasStart for Brand {
    ghost start = { record { store = record { types = []; history = []; limits = standard; forgotten = 0 }; jobs = []; tries = 0 } };
}

/// The store and its workers. Whenever the lock is free, each worker's receipts are its events since
/// the start and the parts of its jobs, and each event since then is a worker's that was let in.
pub struct Shared<R: Recovery, S: HasStart> {
    store: Store<R>,
    workers: Vec<Worker>,
    // The workers below this number may take turns.
    let_in: u8,
    of: PhantomData<S>,
}

impl<R: Recovery, S: HasStart> Model for Shared<R, S> {
    ghost use Rattle.workers.specs.SharedState.{SharedState, IsKeptSince};

    ghost Value = { SharedState };

    ghost view = { λ f. record { store = f.store; workers = f.workers.items; let_in = f.let_in } };

    ghost invariant = { λ f. IsKeptSince S.start (record { store = f.store; workers = f.workers.items; let_in = f.let_in }) };
}

impl<R: Recovery, S: HasStart> Shared<R, S> {
    /// The store, and workers that did nothing. None of them is let in.
    pub fn new(store: Store<R>, workers: Vec<Worker>) -> Shared<R, S>
        requires { IsAtStart S.start store workers.items }
        ensures { result ≡ record { store = store; workers = workers.items; let_in = 0 } }
    {
        start_is_kept();
        history_is_run(&store);
        Shared {
            store,
            workers,
            let_in: 0,
            of: PhantomData,
        }
    }

    /// How many workers there are: one for each list of jobs.
    pub fn count(&self) -> u8
        ensures workers { result ≡ length self.now.workers }
        ensures jobs { result ≡ length S.start.jobs }
    {
        self.workers.len() as u8
    }

    /// How many workers were let in.
    pub fn let_in(&self) -> u8
        ensures { result ≡ self.now.let_in }
    {
        self.let_in
    }

    /// Lets one more worker in, where there is one.
    pub fn let_one_in(&mut self)
        ensures { LetsIn self.old self.new }
    {
        letting_in_is_kept();
        if usize::from(self.let_in) < self.workers.len() {
            self.let_in += 1;
        }
    }

    /// Whether worker w is at its end. One that wasn't let in counts as such.
    pub fn is_at_end(&self, w: u8) -> bool
        ensures ended { result ≡ true → HasEnded self.now w }
        ensures going { result ≡ false → IsGoing self.now w }
    {
        w >= self.let_in || self.workers[usize::from(w)].is_at_end()
    }

    /// How many tries of worker w's job were broken, where it is before another; in the midst of a
    /// try, and where there is no such worker, none.
    pub fn broken_before(&self, w: u8) -> u8
        ensures { result ≡ broken_at self.now.workers w }
    {
        match self.workers.get(usize::from(w)) {
            Some(worker) => worker.broken_before(),
            None => 0,
        }
    }

    /// Puts the workers that aren't at their ends into a list, in ascending order.
    pub fn put_going(&self, going: &mut Vec<u8>)
        requires none { going.old.items ≡ [] }
        requires room { 16 ≤ vec_capacity going.old }
        ensures going { AreGoing self.now going.new.items }
        ensures few { vec_len going.new ≤ 16 }
    {
        for w in 0..self.let_in {
            if !self.is_at_end(w) {
                going.push_reserved(w);
            }
        }
    }

    /// One turn of worker w, where it isn't at its end: one call of the store. True where it is at its
    /// end then.
    pub fn step(&mut self, w: u8) -> bool
        ensures { TakesTurnIfAny self.old w result self.new }
    {
        turns_are_kept();
        turns_are_counted();
        if self.is_at_end(w) {
            return true;
        }
        history_is_run(&self.store);
        let worker = &mut self.workers[usize::from(w)];
        worker.turn(&mut self.store, w);
        let ended = worker.is_at_end();
        history_is_run(&self.store);
        ended
    }

    /// Turns of worker w until it is at its end.
    fn finish(&mut self, w: u8)
        ensures ended { HasEnded self.new w }
        ensures others { LeavesOthers self.old w self.new }
    {
        while !self.step(w) {}
    }

    /// Turns of each worker that was let in until it is at its end.
    pub fn finish_all(&mut self)
        ensures ended { HaveEnded self.new }
        ensures let_in { self.new.let_in ≡ self.old.let_in }
        ensures as_many { length self.new.workers ≡ length self.old.workers }
    {
        for w in 0..self.let_in {
            self.finish(w);
        }
    }

    /// The store, and the report of each worker. Where all that were let in are at their ends, these
    /// say all that came of it.
    pub fn into_reports(self, mut reports: Vec<Report>) -> (Store<R>, Vec<Report>)
        requires ended { HaveEnded self }
        requires none { reports.items ≡ [] }
        requires room { length self.workers ≤ vec_capacity reports }
        ensures { HasWorked S.start self.let_in result.0 result.1.items }
    {
        ending_is_worked();
        let Shared {
            store,
            workers,
            let_in,
            of: _,
        } = self;
        for worker in workers {
            let report = if reports.len() < usize::from(let_in) {
                worker.into_report()
            } else {
                worker.not_run()
            };
            reports.push_reserved(report);
        }
        (store, reports)
    }
}

/// The history of a store is a run.
fn history_is_run<R: Recovery>(store: &Store<R>)
    ensures { IsRun (objects store.now) store.now.history }
{
    store.history();
}
