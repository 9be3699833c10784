//! Numbers that are made of their parts or begin elsewhere, and first lines that only the reader of numbers reads.

use number_text::{FaultKind, TextFault, read_number, write_number};
use number_types::{NumberCall, NumberFile, number_with};
use outputs::{OutFault, Sink};
use std::process::Abort;
use test_support::sinks::{AtEnd, narrow_sink};
use type_table::Name;

/// A credit in cents.
static CREDIT: &[u8] = b"number credit
max 4294967295
initial 0
take 5
give 5
end
";

/// Texts whose first line is another one: a command reads them as type files.
static NO_NUMBERS: [(&[u8], FaultKind); 2] = [
    (
        b"type credit\nmax 4294967295\ninitial 0\ntake 5\nend\n",
        FaultKind::UnknownWord,
    ),
    (
        b"max 4294967295\ninitial 0\ntake 5\nend\n",
        FaultKind::Missing,
    ),
];

/// The number of a text that has no fault.
pub fn number_of(rt: &(impl Abort + AllocGlobal), text: &[u8]) -> NumberFile {
    read_number(rt.alloc(), text).expect(rt, "a fault")
}

#[test]
fn a_number_begins_with_its_word(rt: HostRuntime) {
    for (text, kind) in &NO_NUMBERS {
        let (line, kind) = (1, *kind);
        assert!(rt; read_number(rt.alloc(), text).err() == Some(TextFault { line, kind }));
    }
}

/// That a writer with room for one line has it, and stops the text.
fn stops(rt: &(impl Abort + AllocGlobal), file: &NumberFile) {
    let mut out = narrow_sink(rt.alloc(), 3, 14, AtEnd::Fails);
    let told = write_number(file, &mut out);
    let held = out.into_inner().held;
    let is_held = held.as_slice() == b"number credit\n".as_slice();
    assert!(rt; (told == Err(OutFault::Device)) & is_held);
}

/// Whether a number is told to begin there, and at no other value.
fn begins_at(other: &NumberFile, file: &NumberFile, value: u32) -> bool {
    (other.initial() == value) & other.is_at(file, value) & !other.is_at(file, value ^ 1)
}

/// That a copy of the credit begins at another value.
fn is_moved(rt: &(impl Abort + AllocGlobal), file: &NumberFile) {
    let mut other = file.copy(rt.alloc()).expect(rt, "no memory");
    let was_there = (other.max() == u32::MAX) & begins_at(&other, file, 0);
    if 4_000_000_000 <= other.max() {
        other.begin_at(4_000_000_000);
    }
    let is_there = begins_at(&other, file, 4_000_000_000) & !other.is_at(file, 0);
    assert!(rt; was_there & is_there);
}

#[test]
fn a_credit_is_moved_and_stopped(rt: HostRuntime) {
    let file = number_of(&rt, CREDIT);
    is_moved(&rt, &file);
    stops(&rt, &file);
}

/// A stock of 0 to 5, with a call of each kind.
static FIVE: &[u8] = b"number five
max 5
initial 3
take 2
take any
give 1
give any
atleast 5
value
end
";

/// The calls of the stock.
static CALLS: [NumberCall; 6] = [
    NumberCall::Take(2),
    NumberCall::TakeAny,
    NumberCall::Give(1),
    NumberCall::GiveAny,
    NumberCall::AtLeast(5),
    NumberCall::Value,
];

/// The stock, of its parts.
fn made(rt: &(impl Abort + AllocGlobal), name: Name) -> NumberFile {
    let calls = Vec::from_slice(rt.alloc(), &CALLS).expect(rt, "no memory");
    number_with(rt.alloc(), name, 5, 3, calls).expect(rt, "no memory")
}

/// That a number is written so.
fn is_written(rt: &(impl Abort + AllocGlobal), file: &NumberFile, wanted: &[u8]) {
    let mut out = Sink::new(Vec::new(rt.alloc()));
    let told = write_number(file, &mut out);
    let held = out.into_inner();
    assert!(rt; (told == Ok(())) & (held.as_slice() == wanted));
}

#[test]
fn a_number_is_made_of_its_parts(rt: HostRuntime) {
    let name = Name::new("five").expect(&rt, "no name");
    is_written(&rt, &made(&rt, name), FIVE);
}
