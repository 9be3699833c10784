//! How values are printed and compared.

use object_calls::Call;
use object_trait::{Event, EventKind};
use op_locks::Held;
use serial_order::{Entry, Refusal};
use std::test::Fail;
use store::NewRefusal;
use test_support::printed::{are_debugged, are_printed};
use type_table::Operation;

static REFUSALS: [(Refusal, &str); 7] = [
    (Refusal::NotOpen, "NotOpen"),
    (Refusal::NoObject, "NoObject"),
    (Refusal::NoCall, "NoCall"),
    (Refusal::TooManyOpen, "TooManyOpen"),
    (Refusal::HistoryFull, "HistoryFull"),
    (Refusal::NoMemory, "NoMemory"),
    (Refusal::BadRollback, "BadRollback"),
];

static NEW_REFUSALS: [(NewRefusal, &str); 5] = [
    (NewRefusal::NoObjects, "NoObjects"),
    (NewRefusal::TooManyObjects, "TooManyObjects"),
    (NewRefusal::NotFresh, "NotFresh"),
    (NewRefusal::BadMax, "BadMax"),
    (NewRefusal::NoMemory, "NoMemory"),
];

/// That transaction 1 executed an operation at object 0, as worker 3.
fn event(k: Operation) -> Event {
    Event {
        worker: 3,
        kind: EventKind::Op { t: 1, x: 0, k },
    }
}

/// That transaction 1 executed operation 2 at object 0.
fn entry() -> Entry {
    Entry {
        by: 1,
        at: 0,
        op: Operation::listed(2),
    }
}

#[test]
fn values_are_compared(rt: HostRuntime) {
    let (listed, counted) = (Operation::listed(2), Operation::with(2, 0));
    for (refusal, word) in &REFUSALS {
        assert!(rt; (*refusal == Refusal::NoCall) == (*word == "NoCall"));
    }
    let kind = EventKind::Commit { t: 1 };
    let worker = Event {
        worker: 4,
        ..event(listed)
    };
    assert!(rt; (event(listed) == event(listed)) & (event(listed) != event(counted)));
    assert!(rt; (event(listed) != worker) & (event(listed) != Event { worker: 3, kind }));
    let (by, at) = (Entry { by: 3, ..entry() }, Entry { at: 3, ..entry() });
    let third = Entry {
        op: Operation::listed(3),
        ..entry()
    };
    let other = Entry {
        op: counted,
        ..entry()
    };
    assert!(rt; (entry() == entry()) & (entry() != by) & (entry() != at));
    assert!(rt; (entry() != third) & (entry() != other));
    let held = Held { by: 7, op: 3 };
    assert!(rt; (held == held) & (held != Held::default()));
}

#[test]
fn values_are_printed(rt: HostRuntime) -> Result<(), Fail> {
    are_printed(rt.alloc(), &REFUSALS)?;
    are_debugged(rt.alloc(), &REFUSALS)?;
    are_printed(rt.alloc(), &NEW_REFUSALS)?;
    are_debugged(rt.alloc(), &NEW_REFUSALS)?;
    let text =
        "Event { worker: 3, kind: Op { k: Operation { place: 2, amount: Some(7) }, t: 1, x: 0 } }";
    are_debugged(rt.alloc(), &[(event(Operation::with(2, 7)), text)])?;
    let text = "Entry { by: 1, at: 0, op: Operation { place: 2, amount: None } }";
    are_debugged(rt.alloc(), &[(entry(), text)])?;
    are_debugged(
        rt.alloc(),
        &[(Held { by: 7, op: 3 }, "Held { by: 7, op: 3 }")],
    )?;
    let call = Call {
        first: Operation::listed(1),
        operations: 2,
    };
    let text = "Call { first: Operation { place: 1, amount: None }, operations: 2 }";
    are_debugged(rt.alloc(), &[(call, text)])
}
