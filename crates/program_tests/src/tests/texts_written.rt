//! What is written of a history, and what is read of it again.

use super::gathered::NONE_YET;
use super::texts::{HIGH_HISTORY, HISTORY, SIZED_HISTORY, WIDE_HISTORY};
use history_text::{
    HistoryFile, ObjectLine, OutFault, read_history, write_event, write_history, write_object,
};
use object_trait::{Event, EventKind};
use outputs::Sink;
use std::process::Abort;
use test_support::sinks::{AtEnd, narrow_sink};
use type_table::Kind;

/// The history with comments and spaces, as a run of the program writes it and as one may write it by
/// hand.
const COMMENTED: &[u8] = b"# By hand.
 object  undo 0

object intentions 0 
begin 0 0
begin 0 1
op 0 0 0 0
op 0 1 0 0
op 0 0 1 0
busy 0 1 1 0 0
# refused 3 NoCall
none 0 1 0 1
rollback 0 0 2
commit 0 1
abort 0 0
end
# kept 0 1
# kept 1 0
# audit yes
";

/// A history that says how many objects it may have, and needn't.
const SIZED: &[u8] = b"objects 65536
object undo 255
begin 0 0
end
";

/// The same, as it is written.
const UNSIZED: &[u8] = b"object undo 255
begin 0 0
end
";

/// The history of a text that has no fault.
fn history_of(rt: &(impl Abort + AllocGlobal), text: &[u8]) -> HistoryFile {
    read_history(rt.alloc(), text).expect(rt, "a fault")
}

/// Texts of histories, and how they are written.
static TEXTS: [(&[u8], &[u8]); 6] = [
    (HISTORY, HISTORY),
    (HIGH_HISTORY, HIGH_HISTORY),
    (COMMENTED, HISTORY),
    (SIZED_HISTORY, SIZED_HISTORY),
    (WIDE_HISTORY, WIDE_HISTORY),
    (SIZED, UNSIZED),
];

/// That a history is written so, and that what is read of this is the history.
fn is_written_as(rt: &(impl Abort + AllocGlobal), file: &HistoryFile, wanted: &[u8]) {
    let mut out = Sink::new(Vec::new(rt.alloc()));
    let told = write_history(&file.objects, &file.events, &mut out);
    let held = out.into_inner();
    assert!(rt; (told == Ok(())) & (held.as_slice() == wanted));
    let again = history_of(rt, wanted);
    assert!(rt; again.objects.as_slice() == file.objects.as_slice());
    assert!(rt; again.events.as_slice() == file.events.as_slice());
}

#[test]
fn histories_are_written_and_read_again(rt: HostRuntime) {
    for (text, wanted) in &TEXTS {
        is_written_as(&rt, &history_of(&rt, text), wanted);
    }
}

/// A history of this many objects, and no events, that is written and read again.
fn read_again(rt: &(impl Abort + AllocGlobal), count: usize) -> HistoryFile {
    let object = ObjectLine {
        kind: Kind::Undo,
        file: 0,
        name: None,
    };
    let alloc = rt.alloc();
    let mut objects = Vec::new(alloc);
    objects.resize(count, object).expect(rt, "no objects");
    let mut out = Sink::new(Vec::new(alloc));
    write_history(&objects, &[], &mut out).expect(rt, "not written");
    history_of(rt, &out.into_inner())
}

/// A text of more than 256 objects says how many there are.
#[test]
fn many_objects_are_written_and_read_again(rt: HostRuntime) {
    for (count, size) in [(256, None), (257, Some(257)), (3_000, Some(3_000))] {
        let file = read_again(&rt, count);
        assert!(rt; (file.objects.len() == count) & (file.size == size));
    }
}

/// The greatest event, and its line.
const GREATEST: Event = Event {
    worker: 255,
    kind: EventKind::Busy {
        c: 255,
        t: 4_294_967_295,
        x: 4_294_967_295,
        u: 4_294_967_295,
    },
};

const GREATEST_LINE: &[u8] = b"busy 255 4294967295 4294967295 255 4294967295\n";

#[test]
fn the_greatest_event_has_its_line(rt: HostRuntime) {
    let mut out = Sink::new(Vec::new(rt.alloc()));
    let told = write_event(&mut out, &GREATEST);
    assert!(rt; (told == Ok(())) & (out.into_inner().as_slice() == GREATEST_LINE));
}

/// The events and the objects of a history make its text up to its end, each event in one piece.
#[test]
fn an_event_is_one_piece(rt: HostRuntime) {
    let file = history_of(&rt, HISTORY);
    let mut out = NONE_YET;
    for event in &file.events {
        assert!(rt; write_event(&mut out, event) == Ok(()));
    }
    assert!(rt; out.pieces == file.events.len());
    for object in &file.objects {
        assert!(rt; write_object(&mut out, object) == Ok(()));
    }
    assert!(rt; out.bytes.wrapping_add(4) == HISTORY.len());
}

/// That a writer with room for this many bytes holds these of the text, and stops it by this fault.
fn stops(
    rt: &(impl Abort + AllocGlobal),
    file: &HistoryFile,
    room: usize,
    at_end: AtEnd,
    fault: OutFault,
) {
    let mut out = narrow_sink(rt.alloc(), 7, room, at_end);
    let told = write_history(&file.objects, &file.events, &mut out);
    let held = out.into_inner().held;
    assert!(rt; (told == Err(fault)) & (Some(held.as_slice()) == HISTORY.get(..room)));
}

#[test]
fn a_fault_stops_the_history(rt: HostRuntime) {
    let file = history_of(&rt, HISTORY);
    for room in 0..HISTORY.len() {
        stops(&rt, &file, room, AtEnd::Fails, OutFault::Device);
        stops(
            &rt,
            &file,
            room,
            AtEnd::TakesNothing,
            OutFault::WroteNothing,
        );
    }
}
