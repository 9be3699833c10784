//! A durable store of counters over trees in memory: one in place, one deferred, and more in place. And one of two objects whose
//! yes is one-way.

ghost use Rattle.sqlite_trees.specs.View.{IsClean};
ghost use Rattle.std.specs.Prelude.{IfSome, IsTrue, OnOk};
ghost use Rattle.durable_store.specs.Durable.{IsDurable};
ghost use Rattle.journal.specs.Journal.{ShowsCommit};

use super::votes::{Judged, Kept, Voted, commit_on, decide_on, is_denied, vote_on};
use durable_store::{Decision, Denial, Durable, open, restart, settle_and_restart};
use journal::{FileContents, FirstState, Header, Journal, JournalError, TypeText};
use object_calls::Answer;
use serial_order::Refusal;
use sqlite_trees::memory::MemStore;
use sqlite_trees::store::{Alter, Reopen};
use std::alloc::Global;
use std::process::Abort;
use store_text::ObjectLine;
use test_support::type_texts::{COUNTER, ONE_WAY};
use type_table::{Kind, Operation};

/// The texts of types.
pub fn texts_of(rt: &(impl Abort + AllocGlobal), texts: &[&str]) -> Vec<TypeText> {
    let alloc = rt.alloc();
    let mut types = Vec::new(alloc);
    for text in texts {
        let text = Vec::from_slice(alloc, text.as_bytes()).expect(rt, "no text");
        types.push(TypeText::new(text)).expect(rt, "no types");
    }
    types
}

/// The first states of so many objects.
fn states_at(rt: &(impl Abort + AllocGlobal), count: usize, state: u32) -> Vec<FirstState> {
    let mut states = Vec::new(rt.alloc());
    let grown = states.resize(count, FirstState { state });
    grown.expect(rt, "no states");
    states
}

/// A new file of objects of one type that begin at this state.
pub fn contents(
    rt: &(impl Abort + AllocGlobal),
    text: &str,
    lines: &[ObjectLine],
    state: u32,
) -> FileContents {
    let alloc = rt.alloc();
    FileContents {
        header: Header {
            format: 9,
            id: [7; 16],
            life: 0,
        },
        types: texts_of(rt, &[text]),
        objects: Vec::from_slice(alloc, lines).expect(rt, "no objects"),
        states: states_at(rt, lines.len(), state),
        events: Vec::new(alloc),
        prepared: Vec::new(alloc),
    }
}

/// The line of a counter in place.
pub const IN_PLACE: ObjectLine = ObjectLine {
    kind: Kind::Undo,
    file: 0,
    name: None,
};

/// The lines of two counters, of which the second is deferred.
pub const TWO: [ObjectLine; 2] = [
    IN_PLACE,
    ObjectLine {
        kind: Kind::Intentions,
        file: 0,
        name: None,
    },
];

/// The lines of two objects in place.
const BOTH_IN_PLACE: [ObjectLine; 2] = [IN_PLACE, IN_PLACE];

/// A new file of the two counters.
pub fn two_counters(rt: &(impl Abort + AllocGlobal)) -> FileContents {
    contents(rt, COUNTER, &TWO, 0)
}

/// Trees of which a test makes new ones. The tests are generic in them, and run over trees in memory: where these are
/// named, each step costs several times as much to prove.
pub trait NewTrees: Alter + Reopen {
    /// None yet.
    fn no_trees<R: Abort + AllocGlobal>(rt: &R) -> Self
        ensures { IsClean (Self.Store.view result) → IsTrue (Self.Store.view result).is_numbered };

    /// The same trees, which are always listed by their numbers.
    fn numbered(self) -> Self
        ensures { IsTrue (Self.Store.view result).is_numbered };
}

impl NewTrees for MemStore {
    fn no_trees<R: Abort + AllocGlobal>(rt: &R) -> MemStore {
        MemStore::new(rt.alloc(), &[]).expect(rt, "no trees")
    }

    fn numbered(self) -> MemStore {
        self
    }
}

/// The trees of a new file, or none where it isn't made.
pub fn made<S: Alter + Drop>(rt: &impl AllocGlobal, trees: S, said: &FileContents) -> Option<S>
    requires { IsClean (S.Store.view trees) → IsTrue (S.Store.view trees).is_numbered }
    ensures { IfSome result (λ it. IsClean (S.Store.view it) → IsTrue (S.Store.view it).is_numbered) }
{
    match Journal::create(rt.alloc(), trees, said) {
        Ok(journal) => Some(journal.into_store()),
        Err(_) => None,
    }
}

/// The trees of a new file.
pub fn created<S: Alter + Drop>(rt: &(impl Abort + AllocGlobal), trees: S, said: &FileContents) -> S
    requires { IsClean (S.Store.view trees) → IsTrue (S.Store.view trees).is_numbered }
    ensures { IsClean (S.Store.view result) → IsTrue (S.Store.view result).is_numbered }
{
    made(rt, trees, said).expect(rt, "no file")
}

/// The store in the file in these trees, where one is opened.
pub fn found<S: Alter + Drop>(rt: &impl AllocGlobal, trees: S) -> Option<Durable<S>>
    requires { IsClean (S.Store.view trees) → IsTrue (S.Store.view trees).is_numbered }
    ensures sound { IfSome result (λ store. IsDurable S.Store store) }
    ensures shows { IfSome result (λ store. ShowsCommit S.Store store.journal) }
{
    match open(rt.alloc(), trees) {
        Ok(store) => Some(store),
        Err(_) => None,
    }
}

/// A new store over new trees, whose file says this.
pub fn new_store_of<S: NewTrees + Drop, R: Abort + AllocGlobal>(
    rt: &R,
    said: &FileContents,
) -> Durable<S>
    ensures { IsDurable S.Store result }
{
    let trees = created(rt, S::no_trees(rt), said);
    found(rt, trees).expect(rt, "the file isn't opened")
}

/// A new store of the two counters.
pub fn new_store<S: NewTrees + Drop, R: Abort + AllocGlobal>(rt: &R) -> Durable<S>
    ensures { IsDurable S.Store result }
{
    new_store_of(rt, &two_counters(rt))
}

/// A new store of two objects whose yes is one-way: what is open doesn't go over as its epoch ends.
pub fn one_way_store<S: NewTrees + Drop, R: Abort + AllocGlobal>(rt: &R) -> Durable<S>
    ensures { IsDurable S.Store result }
{
    new_store_of(rt, &contents(rt, ONE_WAY, &BOTH_IN_PLACE, 0))
}

/// What is done to a store that stays the same.
#[derive(Clone, Copy)]
pub enum Act {
    /// The next transaction begins, and has this number.
    Begin(u32),
    /// This transaction counts up at this object.
    Count(u32, u32),
    Commit(u32),
    /// This transaction takes its last operation back and aborts; to abort it once more is refused.
    Abort(u32),
    /// This transaction, which is the next one, counts up at each object and commits.
    Commits(u32),
    /// What was written is settled.
    Settle,
    /// The store has this many events, in this life.
    Has(u32, u32),
    /// This transaction is asked to be prepared under a key, which comes to that.
    Prepare(u32, &'static [u8], Voted),
    /// A decision is asked under a key, which comes to that.
    Decide(&'static [u8], Decision, Judged),
    /// This transaction is prepared: a call, a rollback, a commit and an abort of it are denied.
    Denied(u32),
    /// To count up by this transaction at this object, that one is in the way.
    Busy(u32, u32, u32),
    /// This transaction, which is the next one, counts up at the first object and commits under a key, which comes to that.
    CommitsUnder(u32, &'static [u8], Kept),
}

/// Does this, and tells whether it was answered as it is to be.
pub fn does<S: Alter>(alloc: Global, store: &mut Durable<S>, act: Act) -> Result<bool, JournalError>
    requires { IsDurable S.Store store.old }
    ensures { OnOk result (IsDurable S.Store store.new) }
{
    match act {
        Act::Begin(t) => Ok(store.begin()? == Ok(t)),
        Act::Count(t, x) => counts(store, t, x),
        Act::Commit(t) => Ok(store.commit(t)?.is_ok()),
        Act::Abort(t) => aborts(store, t),
        Act::Commits(t) => commits(store, t),
        Act::Settle => {
            store.settle()?;
            Ok(true)
        }
        Act::Has(events, life) => {
            Ok((store.store().event_count() == events) & (store.life() == life))
        }
        Act::Prepare(t, key, wanted) => Ok(vote_on(alloc, store, t, key)? == Some(wanted)),
        Act::Decide(key, decision, wanted) => {
            Ok(decide_on(alloc, store, key, decision)? == Some(wanted))
        }
        Act::Denied(t) => is_denied(store, t),
        Act::Busy(t, x, other) => { Ok(store.call(t, x, b"inc:1")? == Ok(Answer::Busy(other))) }
        Act::CommitsUnder(t, key, wanted) => Ok(commit_on(alloc, store, t, key)? == Some(wanted)),
    }
}

/// The same of a count.
pub fn counts<S: Alter>(store: &mut Durable<S>, t: u32, x: u32) -> Result<bool, JournalError>
    requires { IsDurable S.Store store.old }
    ensures { OnOk result (IsDurable S.Store store.new) }
{
    Ok(store.call(t, x, b"inc:1")? == Ok(Answer::Reply(Operation::listed(0))))
}

/// The same of an abort.
fn aborts<S: Alter>(store: &mut Durable<S>, t: u32) -> Result<bool, JournalError>
    requires { IsDurable S.Store store.old }
    ensures { OnOk result (IsDurable S.Store store.new) }
{
    let back = store.rollback(t, 1)?.is_ok();
    let ended = store.abort(t)?.is_ok();
    let again = store.abort(t)? == Err(Denial::Refused(Refusal::NotOpen));
    Ok(back & ended & again)
}

/// Transaction t, which is the next one, counts up at each object and commits.
pub fn commits<S: Alter>(store: &mut Durable<S>, t: u32) -> Result<bool, JournalError>
    requires { IsDurable S.Store store.old }
    ensures { OnOk result (IsDurable S.Store store.new) }
{
    let begun = store.begin()? == Ok(t);
    let counted = counts(store, t, 0)? & counts(store, t, 1)?;
    Ok(store.commit(t)?.is_ok() & begun & counted)
}

/// The machine stops, and the file is opened again.
pub fn restarted<S: Alter + Reopen + Drop>(
    rt: &(impl Abort + AllocGlobal),
    store: Durable<S>,
) -> Durable<S>
    requires { IsDurable S.Store store }
    ensures { IsDurable S.Store result }
{
    restart(rt.alloc(), store).expect(rt, "nothing is found")
}

/// That this many events came, and that both objects have this state; the store is let go.
pub fn has<S: Alter + Drop>(rt: &impl Abort, store: Durable<S>, events: u32, state: u32) {
    let seen = store.store();
    let are_so = (seen.kept(0) == Some(state)) & (seen.kept(1) == Some(state));
    let is_so = (seen.event_count() == events) & are_so;
    let _ = store.into_trees();
    assert!(rt; is_so);
}

/// That so many events are found, and both objects in this state, where the machine stops at the moment of a settling
/// that answers.
pub fn has_settled<S: Alter + Reopen + Drop>(
    rt: &(impl Abort + AllocGlobal),
    store: Durable<S>,
    events: u32,
    state: u32,
)
    requires { IsDurable S.Store store }
{
    let (is_settled, store) = settle_and_restart(rt.alloc(), store);
    has(rt, store.expect(rt, "nothing is found"), events, state);
    assert!(rt; is_settled);
}

/// Another epoch begins.
pub fn renewed<S: Alter + Drop>(rt: &(impl Abort + AllocGlobal), store: Durable<S>) -> Durable<S>
    requires { IsDurable S.Store store }
    ensures { IsDurable S.Store result }
{
    let (store, told) = store.renew(rt.alloc());
    told.expect(rt, "the file failed").expect(rt, "no memory");
    store
}
