//! Two workers whose jobs overlap: neither commits before the other has made its call too.

use super::{Turns, are_reported, do_jobs, jobs_of};
use crate::tests::stores::objects_of;
use crate::tests::stores::scripts::store_of;
use object_trait::{EventKind, Recovery};
use std::sync::atomic::{AtomicBool, AtomicU32, Ordering};
use std::thread;
use test_support::type_texts::COUNTER;
use type_table::Kind;
use workers::{Gate, Worked};

/// How often a worker looks for the other.
const MOST_LOOKS: u32 = 50_000_000;

/// One of the workers at the gate: how many turns it had there, and whether it is at its third.
#[derive(Drop)]
struct Side {
    turns: AtomicU32,
    is_there: AtomicBool,
}

/// A gate at which two workers meet before their third turns.
#[derive(Drop)]
struct Meeting {
    first: Side,
    second: Side,
    /// Whether a worker didn't find the other, or got another number of its turns.
    failed: AtomicBool,
}

/// Whether one side, which is there, finds the other.
fn meets(own: &Side, other: &Side) -> bool {
    own.is_there.store(true, Ordering::SeqCst);
    for _ in 0..MOST_LOOKS {
        if other.is_there.load(Ordering::SeqCst) {
            return true;
        }
        thread::yield_now();
    }
    false
}

impl Gate for Meeting {
    fn pass(&self, worker: u8, step: u32) {
        let (own, other) = match worker {
            0 => (&self.first, &self.second),
            _ => (&self.second, &self.first),
        };
        let is_next = own.turns.fetch_add(1, Ordering::SeqCst) == step;
        if !is_next || (step == 2 && !meets(own, other)) {
            self.failed.store(true, Ordering::SeqCst);
        }
    }
}

/// One job of each of two workers.
const TWO_JOBS: &str = "max 20
object undo 0
job 0
do 0 inc:1
job 1
do 0 inc:1
end
";

/// The jobs of both workers are done in one try, and are counted. Both operations come before both commits.
#[test]
fn jobs_overlap(rt: HostRuntime) {
    let gate = Meeting {
        first: Side {
            turns: AtomicU32::new(0),
            is_there: AtomicBool::new(false),
        },
        second: Side {
            turns: AtomicU32::new(0),
            is_there: AtomicBool::new(false),
        },
        failed: AtomicBool::new(false),
    };
    let jobs = jobs_of(&rt, TWO_JOBS, 2);
    let store = store_of(&rt, objects_of(&rt, &[(Kind::Undo, COUNTER)]), 20);
    let Worked {
        store,
        reports,
        fault,
    } = do_jobs(&rt, store, jobs, 1, Turns::SideBySide, &gate);
    let kept = store.kept(0);
    let (history, objects) = store.close();
    assert!(rt; !gate.failed.load(Ordering::SeqCst) & (kept == Some(2)));
    assert!(rt; (fault == None) & (reports.len() == 2));
    assert!(rt; history.len() == 6);
    for position in 4..6 {
        assert!(rt; matches!(history[position].kind, EventKind::Commit { t: _ }));
    }
    are_reported(&rt, &history, 0, &reports);
    assert!(rt; objects.len() == 1);
    for object in &objects {
        assert!(rt; object.state() == 2);
    }
}
