//! A number of any amounts, from 0 to 100 and 20 at first, beside a counter in place.

use super::objects_of;
use super::scripts::{Ask, Row, Told, answers, store_of};
use crate::tests::checked_types::Sort;
use objects::Object;
use std::process::Abort;
use store::{Answer, Store};
use test_support::type_texts::{COUNTER, PURSE};
use type_table::{Kind, Operation};

const OBJECTS: &[Sort] = &[(Kind::Undo, COUNTER), (Kind::Escrow, PURSE)];

/// The second counts up before the first.
static COUNTED: [Row; 4] = [
    (0, Ask::Begin(0)),
    (0, Ask::Begin(1)),
    (0, Ask::Call(1, 0, "inc:1", Told::Operation(0))),
    (0, Ask::Call(0, 0, "inc:1", Told::Operation(0))),
];

/// A call is made only where it is answered so, and an operation tells its call. A gift of nine is open.
#[test]
fn an_amount_is_expected(rt: HostRuntime) {
    let mut store = store_of(&rt, objects_of(&rt, OBJECTS), 20);
    let (short, take) = (Operation::with(1, 30), Operation::with(0, 30));
    assert!(rt; store.begin(0) == Ok(0));
    assert!(rt; store.begin(0) == Ok(1));
    assert!(rt; store.call(0, 0, 1, "give:9") == Ok(Answer::Reply(Operation::with(4, 9))));
    assert!(rt; store.call_of(1, "take:30") == Some(take));
    assert!(rt; store.call_of_op(1, short) == Some(take));
    assert!(rt; store.call_of_op(1, Operation::with(8, 20)) == Some(Operation::with(8, 0)));
    assert!(rt; store.call_of_op(1, Operation::with(0, 101)) == None);
    assert!(rt; store.call_if(0, 1, 1, take, Answer::Reply(take)) == Ok(false));
    assert!(rt; store.call_if(0, 1, 1, take, Answer::Reply(short)) == Ok(true));
    assert!(rt; store.event_count() == 4);
    assert!(rt; store.call_op(0, 1, 1, take) == Ok(Answer::Reply(short)));
    let _ = store.close();
}

/// A store in which the first counted up and committed. The second counted up before that, and gave nine.
fn counted(rt: &(impl Abort + AllocGlobal)) -> Store<Object> {
    let mut store = store_of(rt, objects_of(rt, OBJECTS), 20);
    answers(rt, &mut store, &COUNTED);
    assert!(rt; store.call(0, 1, 1, "give:9") == Ok(Answer::Reply(Operation::with(4, 9))));
    assert!(rt; store.commit(0, 0) == Ok(()));
    store
}

/// That the committed states of its objects are seen at one moment.
fn is_seen(rt: &(impl Abort + AllocGlobal), store: &Store<Object>) {
    let seen = store.snapshot(rt.alloc()).expect(rt, "no memory");
    assert!(rt; (seen.commits == 1) & (seen.states.as_slice() == [1, 20].as_slice()));
}

/// What is open is left out, wherever it is in the log.
#[test]
fn what_is_open_is_left_out(rt: HostRuntime) {
    let store = counted(&rt);
    assert!(rt; (store.kept(0) == Some(2)) & (store.committed(0) == Some(1)));
    assert!(rt; (store.committed(1) == Some(20)) & (store.committed(2) == None));
    assert!(rt; store.commit_count() == 1);
    is_seen(&rt, &store);
    assert!(rt; store.peek(1, "value") == Ok(Some(Operation::with(8, 20))));
    assert!(rt; store.event_count() == 6);
    let _ = store.close();
}
