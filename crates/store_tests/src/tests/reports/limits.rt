//! How many lists of jobs there may be, how often a job may be tried, and how many transactions may be
//! open.

use super::{Turns, are_outcomes, are_reported, do_jobs, jobs_of};
use crate::tests::stores::objects_of;
use crate::tests::stores::scripts::{
    Ask, Happened, Happening, Row, Told, answers, are_events, store_of,
};
use serial_order::Refusal;
use std::process::Abort;
use std::sync::Wait;
use std::thread::Threads;
use test_support::type_texts::{COUNTER, COUNTER_OF_FOUR};
use type_table::Kind;
use workers::{NoGate, Outcome, WorkFault, Worked};

/// Jobs of no worker.
const NO_JOB: &str = "max 20
object undo 0
end
";

/// One job of worker 0.
const ONE_JOB: &str = "max 20
object undo 0
job 0
do 0 inc:1
end
";

/// What a store was asked before: one transaction committed, and one is open.
static BEFORE: [Row; 5] = [
    (9, Ask::Begin(0)),
    (9, Ask::Call(0, 0, "inc:1", Told::Operation(0))),
    (9, Ask::Commit(0)),
    (9, Ask::Begin(1)),
    (9, Ask::Call(1, 0, "inc:1", Told::Operation(0))),
];

/// Its history, closed after that.
static UNCHANGED: [Happened; 6] = [
    (9, Happening::Begin { t: 0 }),
    (9, Happening::Op { t: 0, x: 0, k: 0 }),
    (9, Happening::Commit { t: 0 }),
    (9, Happening::Begin { t: 1 }),
    (9, Happening::Op { t: 1, x: 0, k: 0 }),
    (9, Happening::Abort { t: 1 }),
];

/// Its history where the job was done, closed after that.
static WITH_JOB: [Happened; 9] = [
    (9, Happening::Begin { t: 0 }),
    (9, Happening::Op { t: 0, x: 0, k: 0 }),
    (9, Happening::Commit { t: 0 }),
    (9, Happening::Begin { t: 1 }),
    (9, Happening::Op { t: 1, x: 0, k: 0 }),
    (0, Happening::Begin { t: 2 }),
    (0, Happening::Op { t: 2, x: 0, k: 0 }),
    (0, Happening::Commit { t: 2 }),
    (9, Happening::Abort { t: 1 }),
];

/// The outcome of the job.
const DONE: &[&[Outcome]] = &[&[Outcome::Committed(2)]];

/// The text of jobs, how many lists and tries, and the fault.
type Limit = (&'static str, u8, u8, Option<WorkFault>);

static LIMITS: [Limit; 16] = [
    (NO_JOB, 0, 1, Some(WorkFault::BadWorkers)),
    (NO_JOB, 0, 0, Some(WorkFault::BadWorkers)),
    (NO_JOB, 0, 101, Some(WorkFault::BadWorkers)),
    (ONE_JOB, 17, 1, Some(WorkFault::BadWorkers)),
    (ONE_JOB, 17, 0, Some(WorkFault::BadWorkers)),
    (ONE_JOB, 17, 101, Some(WorkFault::BadWorkers)),
    (ONE_JOB, 255, 100, Some(WorkFault::BadWorkers)),
    (ONE_JOB, 1, 0, Some(WorkFault::BadTries)),
    (ONE_JOB, 1, 101, Some(WorkFault::BadTries)),
    (ONE_JOB, 16, 0, Some(WorkFault::BadTries)),
    (ONE_JOB, 16, 101, Some(WorkFault::BadTries)),
    (ONE_JOB, 16, 255, Some(WorkFault::BadTries)),
    (ONE_JOB, 1, 1, None),
    (ONE_JOB, 1, 100, None),
    (ONE_JOB, 16, 1, None),
    (ONE_JOB, 16, 100, None),
];

/// That these numbers of lists and tries are taken, or not, at a store at which something happened. Nothing is done then and
/// nothing reported; or the job is done, and there is a report of each list.
fn is_taken<R: Abort + AllocGlobal + Threads + Wait + Sync>(rt: &R, limit: &Limit, turns: Turns) {
    let (text, lists, tries, wanted) = *limit;
    let jobs = jobs_of(rt, text, lists);
    let mut store = store_of(rt, objects_of(rt, &[(Kind::Undo, COUNTER_OF_FOUR)]), 20);
    answers(rt, &mut store, &BEFORE);
    let Worked {
        store,
        reports,
        fault,
    } = do_jobs(rt, store, jobs, tries, turns, &NoGate);
    let (history, _) = store.close();
    assert!(rt; fault == wanted);
    if fault.is_some() {
        are_events(rt, &history, &UNCHANGED);
        assert!(rt; reports.is_empty());
        return;
    }
    are_events(rt, &history, &WITH_JOB);
    assert!(rt; reports.len() == usize::from(lists));
    are_outcomes(rt, reports.get(..1).unwrap_or(&[]), DONE);
    are_reported(rt, history.get(..8).unwrap_or(&[]), 5, &reports);
}

#[test]
fn lists_and_tries_are_limited(rt: HostRuntime) {
    for limit in &LIMITS {
        is_taken(&rt, limit, Turns::SideBySide);
        is_taken(&rt, limit, Turns::Drawn(7));
    }
}

/// Three jobs of two workers.
const THREE_JOBS: &str = "max 20
object undo 0
job 0
do 0 inc:1
job 0
job 1
do 0 dec:1
end
";

const TOO_MANY: Outcome = Outcome::Refused(Refusal::TooManyOpen);

/// How many transactions of worker 7 are open, the text of jobs, how many lists of them, how many events there are
/// before the store is closed and after it, and the outcomes.
type Beside = (
    u32,
    &'static str,
    u8,
    usize,
    usize,
    &'static [&'static [Outcome]],
);

static MOST: [Beside; 2] = [
    // All are refused. The begins and their ends are all that happened.
    (
        1024,
        THREE_JOBS,
        2,
        1024,
        2048,
        &[&[TOO_MANY, TOO_MANY], &[TOO_MANY]],
    ),
    // Where one more can be open, the one worker begins.
    (1023, ONE_JOB, 1, 1026, 2049, &[&[Outcome::Committed(1023)]]),
];

/// That jobs have these outcomes at a store at which so many transactions are open.
fn are_done_beside<R: Abort + AllocGlobal + Threads + Wait + Sync>(
    rt: &R,
    beside: &Beside,
    turns: Turns,
) {
    let (open, text, lists, before, events, outcomes) = *beside;
    let jobs = jobs_of(rt, text, lists);
    let mut store = store_of(rt, objects_of(rt, &[(Kind::Undo, COUNTER)]), 3000);
    for t in 0..open {
        assert!(rt; store.begin(7) == Ok(t));
    }
    let Worked {
        store,
        reports,
        fault,
    } = do_jobs(rt, store, jobs, 3, turns, &NoGate);
    let (history, _) = store.close();
    assert!(rt; (fault == None) & (history.len() == events));
    are_outcomes(rt, &reports, outcomes);
    let history = history.get(..before).unwrap_or(&[]);
    are_reported(rt, history, open as usize, &reports);
}

#[test]
fn so_many_may_be_open(rt: HostRuntime) {
    for beside in &MOST {
        are_done_beside(&rt, beside, Turns::SideBySide);
        are_done_beside(&rt, beside, Turns::Drawn(7));
    }
}
