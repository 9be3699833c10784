//! What workers report of the jobs that they did at a store, side by side and by drawn turns.

mod limits;
mod meeting;

use jobs_text::{Job, JobsFile, read_jobs};
use object_trait::Event;
use objects::Object;
use std::process::Abort;
use std::sync::Wait;
use std::thread::Threads;
use store::Store;
use workers::{Gate, Outcome, Receipt, Report, Worked, run_workers, stress};

/// Whose turn it is: that of whoever has the lock, or a worker's that is drawn by words from a seed.
#[derive(Clone, Copy)]
pub enum Turns {
    SideBySide,
    Drawn(u64),
}

/// Does jobs at a store. Side by side workers pass a gate before each turn.
pub fn do_jobs<R: AllocGlobal + Threads + Wait + Sync, G: Gate>(
    rt: &R,
    store: Store<Object>,
    jobs: Vec<Vec<Job>>,
    tries: u8,
    turns: Turns,
    gate: &G,
) -> Worked<Object> {
    match turns {
        Turns::SideBySide => run_workers(rt, store, jobs, tries, gate),
        Turns::Drawn(seed) => stress(rt.alloc(), store, jobs, tries, seed),
    }
}

/// The jobs of a text, in this many lists.
pub fn jobs_of(rt: &(impl Abort + AllocGlobal), text: &str, lists: u8) -> Vec<Vec<Job>> {
    let file = read_jobs(rt.alloc(), text.as_bytes(), lists);
    let JobsFile {
        size: _,
        max: _,
        objects: _,
        jobs,
    } = file.expect(rt, "no jobs");
    jobs
}

/// That each event from a place of a history on is one receipt of its worker, and that there are no other receipts.
pub fn are_reported(rt: &impl Abort, history: &[Event], from: usize, reports: &[Report]) {
    for position in from..history.len() {
        let event = history[position];
        let report = reports.get(usize::from(event.worker));
        let receipts = report.expect(rt, "no report").receipts.as_slice();
        assert!(rt; receipts.contains(&Receipt { position, event }));
    }
    let mut count = 0usize;
    for report in reports {
        count = count.wrapping_add(report.receipts.len());
    }
    assert!(rt; count == history.len().saturating_sub(from));
}

/// That there is a report of each of these lists of outcomes, with them.
pub fn are_outcomes(rt: &impl Abort, reports: &[Report], wanted: &[&[Outcome]]) {
    assert!(rt; reports.len() == wanted.len());
    for (report, outcomes) in reports.iter().zip(wanted) {
        assert!(rt; report.outcomes.as_slice() == *outcomes);
    }
}
