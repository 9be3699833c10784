//! Workers that run side by side, each in a thread of its own.

ghost use Rattle.std.specs.Prelude.{◌≡◌, map, length, true, None, [], ◌≤◌, vec_capacity};
ghost use Rattle.jobs_text.specs.Jobs.{calls_in};
ghost use Rattle.workers.specs.SharedCalls.{HaveEnded};
ghost use Rattle.workers.specs.Worked.{DidNothing, Works, are_workers, are_tries};

use crate::fault::WorkFault;
use crate::gate::Gate;
use crate::pauses::{take, wait_for_a_try};
use crate::returned::Worked;
use crate::shared::{HasStart, Shared};
use crate::team::{Team, team_of};
use jobs_text::Job;
use object_trait::Recovery;
use std::marker::Brand;
use std::sync::{Mutex, Wait};
use std::thread;
use std::thread::Threads;
use store::Store;
use worker_turns::Report;

/// Runs each list of jobs by a worker of its own, in a thread: the first list by worker 0. A job is the
/// begin of a transaction, its calls in order, and the commit, each as one call of the store under one
/// lock. A try in which a call is answered `Busy` or `None` is aborted and begun anew, with at most `tries`
/// tries in all.
///
/// The reports say what each worker noted. `BadWorkers` and `BadTries` come where the lists aren't
/// 1 to 16 and the tries not 1 to 100, in this order, and nothing was done. `NoMemory` comes where
/// memory or the start of a thread was refused: either nothing was done, or the workers before that
/// one did all their jobs, and the others none.
pub fn run_workers<R: Recovery + Send, G: Gate, H: AllocGlobal + Threads + Wait + Sync>(
    rt: &H,
    store: Store<R>,
    jobs: Vec<Vec<Job>>,
    tries: u8,
    gate: &G,
) -> Worked<R>
    ensures { Works (record { store = store; jobs = map calls_in jobs.items; tries = tries }) result.fault result.store result.reports.items }
{
    run_from_start::<R, G, H, Brand>(rt, store, jobs, tries, gate)
}

/// The same from a start, which the type of what is shared has.
fn run_from_start<
    R: Recovery + Send,
    G: Gate,
    H: AllocGlobal + Threads + Wait + Sync,
    S: HasStart + Send,
>(rt: &H, store: Store<R>, jobs: Vec<Vec<Job>>, tries: u8, gate: &G) -> Worked<R>
    requires { S.start ≡ record { store = store; jobs = map calls_in jobs.items; tries = tries } }
    ensures { Works S.start result.fault result.store result.reports.items }
{
    let alloc = rt.alloc();
    let Team { workers, reports } = match team_of(alloc, jobs, tries) {
        Ok(team) => team,
        Err(fault) => {
            return Worked {
                store,
                reports: Vec::new(alloc),
                fault: Some(fault),
            };
        }
    };
    let count = workers.len() as u8;
    let shared: Mutex<Shared<R, S>> = Mutex::new(Shared::new(store, workers));
    start_all(rt, &shared, count, gate);
    let mut shared = shared.into_inner();
    shared.finish_all();
    reported(shared, reports)
}

/// Starts a thread for each worker, as far as threads can be started, and waits for their ends.
fn start_all<R: Recovery + Send, G: Gate, H: Threads + Wait + Sync, S: HasStart + Send>(
    rt: &H,
    shared: &Mutex<Shared<R, S>>,
    count: u8,
    gate: &G,
) {
    thread::scope(thread::scope_env(), rt, |scope| {
        // a worker is let in before it can take the lock
        let mut held = shared.lock(rt);
        for w in 0..count {
            if scope.spawn(move || work(rt, shared, gate, w)).is_err() {
                break;
            }
            held.let_one_in();
        }
    });
}

/// The turns of a worker until it is at its end. Before each it passes the gate, and after a broken try
/// it waits a little.
fn work<R: Recovery, G: Gate, H: Wait, S: HasStart>(
    rt: &H,
    shared: &Mutex<Shared<R, S>>,
    gate: &G,
    w: u8,
) {
    let mut step = 0u32;
    let mut at_end = take(rt, shared).is_at_end(w);
    for _ in rt.forever() {
        if at_end {
            return;
        }
        gate.pass(w, step);
        let mut held = take(rt, shared);
        at_end = held.step(w);
        let broken = held.broken_before(w);
        drop(held);
        wait_for_a_try(broken);
        step = step.saturating_add(1);
    }
}

/// What comes back of workers who are at their ends. Where not all were let in, memory was refused.
pub(crate) fn reported<R: Recovery, S: HasStart>(
    shared: Shared<R, S>,
    reports: Vec<Report>,
) -> Worked<R>
    requires ended { HaveEnded shared }
    requires lists { are_workers (length S.start.jobs) ≡ true }
    requires tries { are_tries S.start.tries ≡ true }
    requires none { reports.items ≡ [] }
    requires room { length S.start.jobs ≤ vec_capacity reports }
    ensures works { Works S.start result.fault result.store result.reports.items }
    ensures all { shared.let_in ≡ length S.start.jobs → result.fault ≡ None }
    ensures nothing { shared.let_in ≡ 0 → DidNothing S.start.store result.store result.reports.items }
{
    let count = shared.count();
    let started = shared.let_in();
    let (store, mut reports) = shared.into_reports(reports);
    if started == count {
        return Worked {
            store,
            reports,
            fault: None,
        };
    }
    if started == 0 {
        reports.clear();
    }
    Worked {
        store,
        reports,
        fault: Some(WorkFault::NoMemory),
    }
}
