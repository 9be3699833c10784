//! Type files: what is read, copied and written, and texts that an output stops.

use declared_types::TypeFile;
use outputs::{OutFault, Sink};
use std::process::Abort;
use test_support::sinks::{AtEnd, narrow_sink};
use test_support::type_texts::COUNTER;
use type_text::{read_type, write_type};

/// The file of a text that has no fault.
pub fn file_of(rt: &(impl Abort + AllocGlobal), text: &[u8]) -> TypeFile {
    read_type(rt.alloc(), text).expect(rt, "a fault")
}

/// That a file is written so.
pub fn is_written(rt: &(impl Abort + AllocGlobal), file: &TypeFile, wanted: &[u8]) {
    let mut out = Sink::new(Vec::new(rt.alloc()));
    let told = write_type(file, &mut out);
    let held = out.into_inner();
    assert!(rt; (told == Ok(())) & (held.as_slice() == wanted));
}

/// That a copy of a file is the same, and is written so.
fn is_copied(rt: &(impl Abort + AllocGlobal), file: &TypeFile, wanted: &[u8]) {
    let copy = file.copy(rt.alloc()).expect(rt, "no memory");
    assert!(rt; copy.is_same(file) & copy.table.is_same(&file.table));
    is_written(rt, &copy, wanted);
}

/// That a writer with room for one line, which ends so, has it and stops the text by this fault.
fn stops(rt: &(impl Abort + AllocGlobal), file: &TypeFile, at_end: AtEnd, fault: OutFault) {
    let mut out = narrow_sink(rt.alloc(), 3, 13, at_end);
    let told = write_type(file, &mut out);
    let held = out.into_inner().held;
    assert!(rt; (told == Err(fault)) & (held.as_slice() == b"type counter\n".as_slice()));
}

#[test]
fn the_counter_is_copied_and_written(rt: HostRuntime) {
    let file = file_of(&rt, COUNTER.as_bytes());
    is_copied(&rt, &file, COUNTER.as_bytes());
    stops(&rt, &file, AtEnd::Fails, OutFault::Device);
    stops(&rt, &file, AtEnd::TakesNothing, OutFault::WroteNothing);
}
