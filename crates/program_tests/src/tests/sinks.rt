//! The outputs.

use outputs::{Failed, Out, OutFault, Sink, put_all};
use std::process::Abort;
use test_support::sinks::{AtEnd, narrow_sink};

/// A writer, by its width, its room and what it answers when it is full; the pieces that are put, what
/// stops them, and the bytes that the writer then holds.
struct Row {
    width: usize,
    room: usize,
    at_end: AtEnd,
    pieces: &'static [&'static [u8]],
    fault: Option<OutFault>,
    held: &'static [u8],
}

static ROWS: [Row; 6] = [
    Row {
        width: 3,
        room: 100,
        at_end: AtEnd::Fails,
        pieces: &[b"step 0 inc:1 1\nend\n"],
        fault: None,
        held: b"step 0 inc:1 1\nend\n",
    },
    Row {
        width: 100,
        room: 13,
        at_end: AtEnd::Fails,
        pieces: &[b"step 0 ", b"inc:1 1\n"],
        fault: Some(OutFault::Device),
        held: b"step 0 inc:1 ",
    },
    Row {
        width: 100,
        room: 13,
        at_end: AtEnd::TakesNothing,
        pieces: &[b"step 0 ", b"inc:1 1\n"],
        fault: Some(OutFault::WroteNothing),
        held: b"step 0 inc:1 ",
    },
    // An empty piece reaches no writer.
    Row {
        width: 100,
        room: 0,
        at_end: AtEnd::Fails,
        pieces: &[b""],
        fault: None,
        held: b"",
    },
    Row {
        width: 100,
        room: 0,
        at_end: AtEnd::Fails,
        pieces: &[b"", b"end\n"],
        fault: Some(OutFault::Device),
        held: b"",
    },
    Row {
        width: 100,
        room: 8,
        at_end: AtEnd::Fails,
        pieces: &[b"# ", b"end", b"", b"\n"],
        fault: None,
        held: b"# end\n",
    },
];

/// That a writer stops the pieces of a row and holds a beginning, as the row says.
fn leaves_a_beginning(rt: &(impl Abort + AllocGlobal), row: &Row) {
    let mut out = narrow_sink(rt.alloc(), row.width, row.room, row.at_end);
    let told = put_all(&mut out, row.pieces).err();
    let fault = out.fault();
    let held = out.into_inner().held;
    assert!(rt; (told == row.fault) & (fault == row.fault) & (held.as_slice() == row.held));
}

#[test]
fn faults_leave_a_beginning(rt: HostRuntime) {
    for row in &ROWS {
        leaves_a_beginning(&rt, row);
    }
}

#[test]
fn memory_takes_pieces_whole(rt: HostRuntime) {
    let mut out = Sink::new(b"# ".to_vec(rt.alloc()).expect(&rt, "no memory"));
    let told = put_all(&mut out, &[b"step 0 inc:1 1\nend\n", b"end", b"", b"\n"]);
    let fault = out.fault();
    let held = out.into_inner();
    let is_held = held.as_slice() == b"# step 0 inc:1 1\nend\nend\n".as_slice();
    assert!(rt; (told == Ok(())) & (fault == None) & is_held);
}

#[test]
fn an_error_of_a_writer_is_a_fault(rt: HostRuntime) {
    let mut out = narrow_sink(rt.alloc(), 100, 0, AtEnd::Fails);
    let told = out.take(b"end\n");
    assert!(rt; (told == Err(Failed)) & (out.fault() == Some(OutFault::Device)));
}
