//! The guide's example of a store in Rattle.

use object_calls::Answer;
use object_trait::Recovery;
use objects::Object;
use serial_order::Refusal;
use std::alloc::Global;
use std::sync::Arc;
use std::test::Fail;
use store::Store;
use table_checker::check;
use type_table::{Kind, Operation};
use type_text::read_type;

static COUNTER: &str = "type counter
states 3
initial 0
op inc:1 ok
op dec:1 ok
step 0 0 1
step 1 0 2
step 1 1 0
step 2 1 1
conflict undo 0 1
conflict undo 1 0
end
";

/// A store of one counter, in place.
fn counter(alloc: Global) -> Result<Store<Object>, Fail> {
    let file = read_type(alloc, COUNTER.as_bytes()).ok().ok_or("no type")?;
    let checked = check(file, Kind::Undo).ok().ok_or("not accepted")?;
    let mut objects = Vec::with_capacity(alloc, 1)?;
    objects.push_reserved(Object::new(alloc, Arc::new(alloc, checked)?));
    Ok(
        Store::new(alloc, objects, 1_000_000)
            .ok()
            .ok_or("no store")?,
    )
}

/// Two transactions at it, of two workers.
fn run<R: Recovery>(store: &mut Store<R>) -> Result<[Answer; 3], Refusal> {
    let first = store.begin(0)?;
    let second = store.begin(1)?;
    let up = store.call(0, first, 0, "inc:1")?; // Reply: from 0 to 1
    let beside = store.call(1, second, 0, "inc:1")?; // Reply: to 2, beside the first
    let down = store.call(1, second, 0, "dec:1")?; // Busy(0): the first one's up is in the way
    store.abort(0, first)?; // takes that up out of the middle
    store.commit(1, second)?;
    Ok([up, beside, down])
}

#[test]
fn the_example_of_the_guide(rt: HostRuntime) -> Result<(), Fail> {
    let mut store = counter(rt.alloc())?;
    let answers = run(&mut store).ok();
    let kept = store.kept(0);
    let events = store.close().0.len();
    let up = Operation::listed(0);
    let expected = [Answer::Reply(up), Answer::Reply(up), Answer::Busy(0)];
    assert!(&rt; (answers == Some(expected)) & (kept == Some(1)) & (events == 7));
    Ok(())
}
