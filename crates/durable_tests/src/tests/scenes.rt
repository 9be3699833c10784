//! What happens to a store of two counters or of many, step by step: commits, epochs, and stops of the machine.

ghost use Rattle.durable_store.specs.Durable.{IsDurable};

use super::counters::{
    Act, IN_PLACE, NewTrees, contents, does, has, has_settled, new_store, new_store_of, renewed,
    restarted,
};
use super::votes::{Judged, Kept, Voted};
use durable_store::{Decision, Durable};
use sqlite_trees::memory::MemStore;
use sqlite_trees::store::{Alter, Reopen};
use std::process::Abort;
use test_support::type_texts::COUNTER;

/// What happens to a store.
#[derive(Clone, Copy)]
enum Step {
    /// This is done.
    Does(Act),
    /// The machine stops, and the file is opened again.
    Restart,
    /// Another epoch begins.
    Renew,
}

/// What happens to a new store, whether the machine stops then at the moment of a settling that answers; how many events
/// are found, and in which state both objects.
type Scene = (&'static [Step], bool, u32, u32);

/// The store where this was done, and answered as it is to be.
fn done<S: Alter>(rt: &(impl Abort + AllocGlobal), store: Durable<S>, act: Act) -> Durable<S>
    requires { IsDurable S.Store store }
    ensures { IsDurable S.Store result }
{
    let mut store = store;
    let is_told = does(rt.alloc(), &mut store, act).expect(rt, "the file failed");
    assert!(rt; is_told);
    store
}

/// The store after a step.
fn stepped<S: Alter + Reopen + Drop>(
    rt: &(impl Abort + AllocGlobal),
    store: Durable<S>,
    step: Step,
) -> Durable<S>
    requires { IsDurable S.Store store }
    ensures { IsDurable S.Store result }
{
    match step {
        Step::Does(act) => done(rt, store, act),
        Step::Restart => restarted(rt, store),
        Step::Renew => renewed(rt, store),
    }
}

/// The store after these steps.
fn played<S: Alter + Reopen + Drop>(
    rt: &(impl Abort + AllocGlobal),
    store: Durable<S>,
    steps: &[Step],
) -> Durable<S>
    requires { IsDurable S.Store store }
    ensures { IsDurable S.Store result }
{
    let mut store = store;
    for step in steps {
        store = stepped(rt, store, *step);
    }
    store
}

/// What was settled is found after a stop of the machine, and what wasn't is gone.
static OUTAGES: [Scene; 6] = [
    (
        &[
            Step::Does(Act::Commits(0)),
            Step::Does(Act::Settle),
            Step::Restart,
        ],
        false,
        4,
        1,
    ),
    (&[Step::Does(Act::Commits(0)), Step::Restart], false, 0, 0),
    // One settling is for all that came before it, and for nothing after it.
    (
        &[
            Step::Does(Act::Commits(0)),
            Step::Does(Act::Commits(1)),
            Step::Does(Act::Settle),
            Step::Does(Act::Begin(2)),
            Step::Restart,
        ],
        false,
        8,
        2,
    ),
    // Of what was open an abort is found.
    (
        &[
            Step::Does(Act::Begin(0)),
            Step::Does(Act::Count(0, 0)),
            Step::Does(Act::Settle),
            Step::Restart,
            Step::Does(Act::Begin(1)),
            Step::Does(Act::Has(4, 2)),
        ],
        false,
        4,
        0,
    ),
    (&[Step::Does(Act::Commits(0))], true, 4, 1),
    // A refusal is no event, and a rollback and an abort are.
    (
        &[
            Step::Does(Act::Begin(0)),
            Step::Does(Act::Count(0, 1)),
            Step::Does(Act::Abort(0)),
            Step::Does(Act::Settle),
            Step::Restart,
        ],
        false,
        4,
        0,
    ),
];

/// Another epoch begins at the states that were kept, in a higher life, and goes on with events of its own.
static EPOCHS: [Scene; 4] = [
    (
        &[
            Step::Does(Act::Commits(0)),
            Step::Does(Act::Settle),
            Step::Does(Act::Has(4, 1)),
            Step::Renew,
            Step::Does(Act::Has(0, 2)),
            Step::Restart,
            Step::Does(Act::Has(0, 3)),
        ],
        false,
        0,
        1,
    ),
    (
        &[
            Step::Does(Act::Commits(0)),
            Step::Does(Act::Settle),
            Step::Renew,
            Step::Does(Act::Begin(0)),
            Step::Does(Act::Count(0, 0)),
            Step::Does(Act::Count(0, 1)),
            Step::Does(Act::Commit(0)),
            Step::Does(Act::Settle),
            Step::Restart,
            Step::Does(Act::Has(4, 3)),
        ],
        false,
        4,
        2,
    ),
    // What was written and not settled is gone, and the new epoch stays.
    (
        &[
            Step::Does(Act::Commits(0)),
            Step::Does(Act::Settle),
            Step::Renew,
            Step::Does(Act::Commits(0)),
            Step::Restart,
        ],
        false,
        0,
        1,
    ),
    // One epoch after another.
    (
        &[
            Step::Does(Act::Commits(0)),
            Step::Does(Act::Settle),
            Step::Renew,
            Step::Does(Act::Commits(0)),
            Step::Does(Act::Settle),
            Step::Renew,
            Step::Restart,
            Step::Does(Act::Has(0, 4)),
            Step::Restart,
            Step::Does(Act::Has(0, 5)),
        ],
        false,
        0,
        2,
    ),
];

/// What is prepared stays open until it is decided, with what it did and whom it keeps out.
static HELD: [Scene; 7] = [
    // A restart aborts what else was open.
    (
        &[
            Step::Does(Act::Begin(0)),
            Step::Does(Act::Begin(1)),
            Step::Does(Act::Count(0, 0)),
            Step::Does(Act::Count(1, 0)),
            Step::Does(Act::Count(1, 1)),
            Step::Does(Act::Prepare(1, b"a", Voted::Prepared)),
            Step::Does(Act::Settle),
            Step::Restart,
            Step::Does(Act::Has(6, 2)),
            Step::Does(Act::Denied(1)),
            Step::Does(Act::Begin(2)),
            Step::Does(Act::Busy(2, 1, 1)),
            Step::Does(Act::Decide(b"a", Decision::Commit, Judged::Decided)),
            Step::Does(Act::Settle),
            Step::Restart,
        ],
        false,
        10,
        1,
    ),
    // One that wasn't settled is gone, and its key is free.
    (
        &[
            Step::Does(Act::Begin(0)),
            Step::Does(Act::Count(0, 0)),
            Step::Does(Act::Settle),
            Step::Does(Act::Prepare(0, b"a", Voted::Prepared)),
            Step::Restart,
            Step::Does(Act::Begin(1)),
            Step::Does(Act::Prepare(0, b"a", Voted::NotOpen)),
            Step::Does(Act::Prepare(1, b"a", Voted::Prepared)),
            Step::Does(Act::Settle),
            Step::Restart,
            Step::Does(Act::Denied(1)),
            Step::Does(Act::Decide(b"a", Decision::Abort, Judged::Decided)),
        ],
        false,
        5,
        0,
    ),
    // It goes over into another epoch, and another, at the states that had committed, and so does what else is open, since the
    // yes of a counter is strong. A restart aborts that.
    (
        &[
            Step::Does(Act::Commits(0)),
            Step::Does(Act::Begin(1)),
            Step::Does(Act::Begin(2)),
            Step::Does(Act::Count(2, 0)),
            Step::Does(Act::Count(2, 1)),
            Step::Does(Act::Prepare(2, b"a", Voted::Prepared)),
            Step::Does(Act::Settle),
            Step::Renew,
            Step::Does(Act::Has(4, 2)),
            Step::Does(Act::Denied(1)),
            Step::Renew,
            Step::Does(Act::Has(4, 3)),
            Step::Restart,
            Step::Does(Act::Has(5, 4)),
            Step::Does(Act::Denied(1)),
            Step::Does(Act::Begin(2)),
            Step::Does(Act::Busy(2, 1, 1)),
            Step::Does(Act::Decide(b"a", Decision::Commit, Judged::Decided)),
            Step::Does(Act::Settle),
            Step::Renew,
            Step::Does(Act::Has(1, 5)),
            Step::Does(Act::Decide(b"a", Decision::Commit, Judged::Decided)),
            Step::Does(Act::Decide(b"a", Decision::Abort, Judged::Otherwise)),
        ],
        false,
        1,
        2,
    ),
    // Two go over by their places among all that is open, whichever was prepared first. A restart aborts the one that isn't prepared.
    (
        &[
            Step::Does(Act::Begin(0)),
            Step::Does(Act::Begin(1)),
            Step::Does(Act::Begin(2)),
            Step::Does(Act::Count(1, 0)),
            Step::Does(Act::Count(2, 0)),
            Step::Does(Act::Count(2, 1)),
            Step::Does(Act::Prepare(2, b"b", Voted::Prepared)),
            Step::Does(Act::Prepare(1, b"a", Voted::Prepared)),
            Step::Renew,
            Step::Does(Act::Has(6, 2)),
            Step::Does(Act::Denied(1)),
            Step::Does(Act::Denied(2)),
            Step::Does(Act::Decide(b"a", Decision::Abort, Judged::Decided)),
            Step::Does(Act::Denied(2)),
            Step::Does(Act::Decide(b"b", Decision::Commit, Judged::Decided)),
        ],
        true,
        9,
        1,
    ),
    // An abort under a key that nobody has is kept, and nothing is prepared or commits under it later.
    (
        &[
            Step::Does(Act::Decide(b"a", Decision::Commit, Judged::Unknown)),
            Step::Does(Act::Decide(b"a", Decision::Abort, Judged::Decided)),
            Step::Does(Act::Settle),
            Step::Restart,
            Step::Does(Act::Decide(b"a", Decision::Abort, Judged::Decided)),
            Step::Does(Act::Decide(b"a", Decision::Commit, Judged::Otherwise)),
            Step::Does(Act::Begin(0)),
            Step::Does(Act::Prepare(0, b"a", Voted::Aborted)),
            Step::Does(Act::CommitsUnder(1, b"a", Kept::KnownAborted)),
            Step::Restart,
        ],
        false,
        0,
        0,
    ),
    // A key is one transaction's, and a transaction has one key.
    (
        &[
            Step::Does(Act::Begin(0)),
            Step::Does(Act::Begin(1)),
            Step::Does(Act::Prepare(0, b"a", Voted::Prepared)),
            Step::Does(Act::Prepare(0, b"a", Voted::Again)),
            Step::Does(Act::Prepare(0, b"b", Voted::Otherwise)),
            Step::Does(Act::Prepare(1, b"a", Voted::KeyInUse)),
            Step::Does(Act::CommitsUnder(2, b"a", Kept::Prepared)),
            Step::Does(Act::Decide(b"a", Decision::Commit, Judged::Decided)),
            Step::Does(Act::Prepare(1, b"a", Voted::Committed)),
            Step::Does(Act::CommitsUnder(3, b"c", Kept::Done)),
            Step::Does(Act::Prepare(1, b"c", Voted::Committed)),
            Step::Restart,
        ],
        false,
        0,
        0,
    ),
    // What isn't open isn't prepared, and what is decided is over.
    (
        &[
            Step::Does(Act::Prepare(0, b"a", Voted::NotOpen)),
            Step::Does(Act::Begin(0)),
            Step::Does(Act::Prepare(0, b"a", Voted::Prepared)),
            Step::Does(Act::Decide(b"a", Decision::Abort, Judged::Decided)),
            Step::Does(Act::Prepare(0, b"a", Voted::NotOpen)),
            Step::Does(Act::Prepare(0, b"b", Voted::NotOpen)),
        ],
        true,
        2,
        0,
    ),
];

/// That each of these scenes ends so.
fn end_so<S: NewTrees + Drop, R: Abort + AllocGlobal>(rt: &R, scenes: &[Scene]) {
    for (steps, is_settling, events, state) in scenes {
        let store = played(rt, new_store::<S, R>(rt), steps);
        if *is_settling {
            has_settled(rt, store, *events, *state);
        } else {
            has(rt, store, *events, *state);
        }
    }
}

/// What happens to the first and to the last of 300 counters: both commits are settled, in two epochs.
static AT_THE_LAST: [Step; 13] = [
    Step::Does(Act::Begin(0)),
    Step::Does(Act::Count(0, 299)),
    Step::Does(Act::Commit(0)),
    Step::Does(Act::Settle),
    Step::Restart,
    Step::Does(Act::Has(3, 2)),
    Step::Renew,
    Step::Does(Act::Begin(0)),
    Step::Does(Act::Count(0, 0)),
    Step::Does(Act::Count(0, 299)),
    Step::Does(Act::Commit(0)),
    Step::Does(Act::Settle),
    Step::Restart,
];

/// That what was done at the first and at the last of 300 counters in place is found, and that there is no object behind
/// the last.
fn the_last_is_found<S: NewTrees + Drop, R: Abort + AllocGlobal>(rt: &R) {
    let mut lines = Vec::new(rt.alloc());
    lines.resize(300, IN_PLACE).expect(rt, "no lines");
    let said = contents(rt, COUNTER, &lines, 0);
    let store = played(rt, new_store_of::<S, R>(rt, &said), &AT_THE_LAST);
    let seen = store.store();
    let are_there = (seen.kept(0) == Some(1)) & (seen.kept(299) == Some(2));
    let is_last = seen.kept(300).is_none();
    let _ = store.into_trees();
    assert!(rt; are_there & is_last);
}

#[test]
fn what_happened_is_found(rt: HostRuntime) {
    for scenes in [OUTAGES.as_slice(), EPOCHS.as_slice(), HELD.as_slice()] {
        end_so::<MemStore, HostRuntime>(&rt, scenes);
    }
    the_last_is_found::<MemStore, HostRuntime>(&rt);
}
