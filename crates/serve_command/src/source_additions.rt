//! Objects that a client asks to be added, as files say them.

use command_files::{Fault, Source};
use database_commands::{read_objects, texts_of, types_among};
use durable_store::{ObjectNames, file_limits};
use journal::TypeText;
use serving::{Added, AdditionFault, Additions};
use std::alloc::{AllocError, Global};
use store_files::{ObjectTypes, object_line, read_declared};
use store_text::ObjectLine;

/// What reads the files that a source gives by their paths.
#[derive(Drop)]
pub struct SourceAdditions<S> {
    pub source: S,
}

impl<S: Source> Additions for SourceAdditions<S> {
    // The objects are read and then the types, each parsed before the next is opened; object by object, its place is
    // tested and its type is checked; last, that no object has a name already. A line says what is amiss: that of a fault, as the command `extend` writes it but
    // for its first word, or that of the first object whose type isn't accepted, by its number in the whole store.
    fn read(
        &mut self,
        alloc: Global,
        so_far: u32,
        names: &ObjectNames,
        paths: &[&[u8]],
    ) -> Result<Added, AdditionFault> {
        let words = words_of(alloc, paths)?;
        match words.as_slice() {
            [objects, types @ ..] => {
                let added = read_added(alloc, so_far, objects, types, &mut self.source)?;
                test_names(alloc, names, objects, &added.lines)?;
                Ok(added)
            }
            [] => Err(AdditionFault::NoMemory),
        }
    }
}

/// What is read of an extension: its objects, the texts of its types, and what was found of the objects' types.
#[derive(Drop)]
struct Parts {
    lines: Vec<ObjectLine>,
    texts: Vec<TypeText>,
    found: ObjectTypes,
}

/// That none of these objects, of the text at this path, has a name that another object has.
fn test_names(
    alloc: Global,
    names: &ObjectNames,
    path: &str,
    lines: &[ObjectLine],
) -> Result<(), AdditionFault> {
    for (x, line) in lines.iter().enumerate() {
        if has_known_name(names, line) {
            return Err(fault_of_reading(alloc, Fault::NameTaken { path, x }));
        }
    }
    Ok(())
}

/// Whether the name of an object is among these.
fn has_known_name(names: &ObjectNames, line: &ObjectLine) -> bool {
    match line.name {
        Some(name) => names.find(&name).is_some(),
        None => false,
    }
}

/// The paths as texts: they are of ASCII.
fn words_of<'a>(alloc: Global, paths: &[&'a [u8]]) -> Result<Vec<&'a str>, AllocError> {
    let mut words = Vec::new(alloc);
    for path in paths {
        words.push(str::from_utf8(path).unwrap_or(""))?;
    }
    Ok(words)
}

/// What these files add to a store that has so many objects.
fn read_added<S: Source>(
    alloc: Global,
    so_far: u32,
    objects: &str,
    types: &[&str],
    source: &mut S,
) -> Result<Added, AdditionFault> {
    match read_parts(alloc, objects, types, source) {
        Ok(parts) => added_of(alloc, so_far, parts),
        Err(fault) => Err(fault_of_reading(alloc, fault)),
    }
}

/// The parts of an extension, read and checked as the command `extend` does.
fn read_parts<'a, S: Source>(
    alloc: Global,
    objects: &'a str,
    types: &[&'a str],
    source: &mut S,
) -> Result<Parts, Fault<'a>> {
    let lines = read_objects(alloc, objects, source)?;
    let declared = read_declared(alloc, types, source)?;
    let found = types_among(alloc, objects, &declared, &lines)?;
    let texts = texts_of(alloc, &declared)?;
    Ok(Parts {
        lines,
        texts,
        found,
    })
}

/// What is to be added, where the types were accepted and a store has room for the objects.
fn added_of(alloc: Global, so_far: u32, parts: Parts) -> Result<Added, AdditionFault> {
    let Parts {
        lines,
        texts,
        found,
    } = parts;
    if let ObjectTypes::Refused { x, refusal } = found {
        let line = object_line(alloc, (so_far as usize).saturating_add(x), refusal)?;
        return Err(why_of(alloc, &line));
    }
    let room = file_limits().objects.saturating_sub(so_far) as usize;
    if lines.len() > room {
        return Err(fault_of_reading(alloc, Fault::TooLarge));
    }
    Ok(Added { texts, lines })
}

/// Why an extension isn't read, in the words of the command.
fn fault_of_reading(alloc: Global, fault: Fault<'_>) -> AdditionFault {
    if matches!(fault, Fault::NoMemory) {
        return AdditionFault::NoMemory;
    }
    match fault.line(alloc) {
        Ok(line) => why_of(alloc, line.strip_prefix("colock: ").unwrap_or(&line)),
        Err(_) => AdditionFault::NoMemory,
    }
}

/// That a line says why, without its LF.
fn why_of(alloc: Global, line: &str) -> AdditionFault {
    let why = match line.as_bytes() {
        [why @ .., b'\n'] => why,
        line => line,
    };
    match Vec::from_slice(alloc, why) {
        Ok(why) => AdditionFault::Refused { why },
        Err(_) => AdditionFault::NoMemory,
    }
}
