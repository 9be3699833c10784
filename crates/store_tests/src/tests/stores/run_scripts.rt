//! Scripts that are run: what an output that stops has taken, and what is left of the store.

ghost use Rattle.std.specs.Prelude.{◌≡◌, true, [], length};

use super::objects_of;
use super::scripts::{Happened, Happening, are_events, is_closed, store_of};
use object_trait::Recovery;
use outputs::OutFault;
use script_run::run_script;
use script_text::{Script, read_script};
use std::process::Abort;
use store::Store;
use test_support::sinks::{AtEnd, narrow_sink};
use test_support::type_texts::COUNTER;
use type_table::Kind;

/// Whether a store has no history and as many objects as a script.
#[tactic(auto, using(std::proofs::lemmas::List::nil_from_length))]
fn is_ready<R: Recovery>(store: &Store<R>, script: &Script) -> bool
    ensures fresh { result ≡ true → store.now.history ≡ [] }
    ensures objects { result ≡ true → length store.now.types ≡ length script.now.objects.items }
{
    store.event_count() == 0 && store.object_count() as usize == script.objects.len()
}

/// One transaction aborts, and another commits.
const KEEPS_OTHERS: &str = "max 20
object undo 0
begin
begin
call 0 0 inc:1
call 1 0 inc:1
abort 0
commit 1
end
";

/// The text of its run.
const KEEPS_OTHERS_TEXT: &str = "object undo 0
begin 0 0
begin 0 1
op 0 0 0 0
op 0 1 0 0
abort 0 0
commit 0 1
end
# kept 0 1
";

const BEGIN_0: Happened = (0, Happening::Begin { t: 0 });

const BEGIN_1: Happened = (0, Happening::Begin { t: 1 });

const UP_0: Happened = (0, Happening::Op { t: 0, x: 0, k: 0 });

const UP_1: Happened = (0, Happening::Op { t: 1, x: 0, k: 0 });

const ABORT_0: Happened = (0, Happening::Abort { t: 0 });

const ABORT_1: Happened = (0, Happening::Abort { t: 1 });

const COMMIT_1: Happened = (0, Happening::Commit { t: 1 });

/// The history of a store at its close where this many commands were asked: their events, and the ends of what they left
/// open.
static HISTORIES: [&[Happened]; 7] = [
    &[],
    &[BEGIN_0, ABORT_0],
    &[BEGIN_0, BEGIN_1, ABORT_0, ABORT_1],
    &[BEGIN_0, BEGIN_1, UP_0, ABORT_0, ABORT_1],
    &[BEGIN_0, BEGIN_1, UP_0, UP_1, ABORT_0, ABORT_1],
    &[BEGIN_0, BEGIN_1, UP_0, UP_1, ABORT_0, ABORT_1],
    &[BEGIN_0, BEGIN_1, UP_0, UP_1, ABORT_0, COMMIT_1],
];

/// How many commands were asked where the output stopped after these bytes: the one whose line failed, and those
/// before it.
fn asked_at(taken: &[u8]) -> usize {
    let mut lines = 0usize;
    for byte in taken {
        if *byte == b'\n' {
            lines = lines.wrapping_add(1);
        }
    }
    lines.min(6)
}

/// That a run on a new counter stops after this many bytes, by this fault. The store has the events of the commands that were
/// asked, and `close` aborts what is open.
fn stops_at(
    rt: &(impl Abort + AllocGlobal),
    room: usize,
    at_end: AtEnd,
    wanted: Result<(), OutFault>,
) {
    let script = read_script(rt.alloc(), KEEPS_OTHERS.as_bytes());
    let script = script.ok().expect(rt, "no script");
    let store = store_of(rt, objects_of(rt, &[(Kind::Undo, COUNTER)]), script.max);
    let mut out = narrow_sink(rt.alloc(), usize::MAX, room, at_end);
    assert!(rt; is_ready(&store, &script));
    let (store, result) = run_script(store, &script, &mut out);
    assert!(rt; result == wanted);
    let held = out.into_inner().held;
    assert!(rt; KEEPS_OTHERS_TEXT.as_bytes().get(..room) == Some(held.as_slice()));
    let asked = asked_at(&held);
    let history = HISTORIES.get(asked).copied().unwrap_or(&[]);
    are_events(rt, store.history(), history.get(..asked).unwrap_or(&[]));
    let _ = is_closed(rt, store, history, &[u32::from(asked == 6)]);
}

/// Each beginning of the text is what an output may have taken, and each has its history.
#[test]
fn a_stopped_output_has_a_beginning(rt: HostRuntime) {
    let whole = KEEPS_OTHERS_TEXT.len();
    for room in 0..whole {
        stops_at(&rt, room, AtEnd::Fails, Err(OutFault::Device));
        stops_at(&rt, room, AtEnd::TakesNothing, Err(OutFault::WroteNothing));
    }
    stops_at(&rt, whole, AtEnd::Fails, Ok(()));
}
