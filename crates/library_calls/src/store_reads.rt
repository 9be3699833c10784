//! Reads of what is committed at a store, answered by codes.

ghost use Rattle.std.specs.Prelude.{◌≡◌, ◌≢◌, ◌<◌, ◌≤◌, length};
ghost use Rattle.store_laws.specs.Stored.{objects};
ghost use Rattle.store.specs.CommittedStates.{IsCommittedState};
ghost use Rattle.library_calls.specs.Codes.{number};
ghost use Rattle.library_calls.specs.Reads.{HasCommits, HasSnapshot, IsCommittedStateOf, IsPeekOf, IsSnapshotOf, peek_answer};

use crate::code::{Code, peek_code};
use crate::words::{ColockAnswer, answer_words};
use objects::Object;
use store::{Answer, Store};
use type_table::Operation;

/// Says what a call is answered to a transaction that only reads.
pub fn peek(
    store: &Store<Object>,
    x: u32,
    name: &[u8],
    answer: &mut ColockAnswer,
    commits: &mut u64,
) -> Code
    ensures peeked { IsPeekOf store.now x name.now (number result) answer.new commits.new }
    ensures rest { number result ≢ 0 → (answer.new ≡ answer.old) × (commits.new ≡ commits.old) }
{
    match store.peek_bytes(x, name) {
        Ok(found) => {
            *answer = answer_words(peek_answer(found));
            *commits = commits_of(store);
            Code::Done
        }
        Err(refusal) => peek_code(refusal),
    }
}

/// What a read found, as an answer.
fn peek_answer(found: Option<Operation>) -> Answer
    ensures { result ≡ peek_answer found }
{
    match found {
        Some(k) => Answer::Reply(k),
        None => Answer::None,
    }
}

/// How many transactions have committed.
pub fn commits_of(store: &Store<Object>) -> u64
    ensures { HasCommits store.now result }
{
    u64::from(store.commit_count())
}

/// Gives the committed state of an object.
pub fn committed(store: &Store<Object>, x: u32, state: &mut u64, commits: &mut u64) -> Code
    ensures committed { IsCommittedStateOf store.now x (number result) state.new commits.new }
    ensures rest { number result ≢ 0 → (state.new ≡ state.old) × (commits.new ≡ commits.old) }
{
    match store.committed(x) {
        Some(committed) => {
            *state = u64::from(committed);
            *commits = commits_of(store);
            Code::Done
        }
        None => Code::NoObject,
    }
}

/// Puts the committed states of all objects into a room, in their order.
pub fn snapshot(store: &Store<Object>, room: &mut [u64], commits: &mut u64) -> Code
    ensures taken { IsSnapshotOf store.now room.old (number result) room.new commits.new }
    ensures rest { number result ≢ 0 → (room.new ≡ room.old) × (commits.new ≡ commits.old) }
{
    let count = store.object_count();
    if room.len() < count as usize {
        return Code::NoRoom;
    }
    fill(store, count, room);
    *commits = commits_of(store);
    Code::Done
}

/// Puts the committed states of this many objects, which are all, into a room that has places for them.
fn fill(store: &Store<Object>, count: u32, room: &mut [u64])
    requires all { count ≡ length (objects store.now) }
    requires places { count ≤ length room.old }
    ensures { HasSnapshot store.now room.old room.new }
{
    for x in 0..count {
        room[x as usize] = u64::from(state_at(store, x));
    }
}

/// The committed state of an object that is there.
fn state_at(store: &Store<Object>, x: u32) -> u32
    requires { x < length (objects store.now) }
    ensures { IsCommittedState store.now x result }
{
    let Some(state) = store.committed(x) else {
        unreachable!()
    };
    state
}
