//! `create`: the file of a new store.

ghost use Rattle.std.specs.Prelude.{◌≡◌, ◌≢◌, ℕ, List, [], true, false, None, map, IfOk, IfErr, IfSome, IsTrue, OnOk, OnErr};
ghost use Rattle.sqlite_trees.specs.View.{IsClean};
ghost use Rattle.journal.specs.Contents.{contents_of};
ghost use Rattle.durable_store.specs.Created.{IsNewFile};
ghost use Rattle.declared_text.specs.Canonical.{canonical_text};
ghost use Rattle.command_files.specs.Answers.{Comes, IsEarlyFault};
ghost use Rattle.command_files.specs.declared.fault.Fault.TheVariants.{NoMemory};
ghost use Rattle.database_commands.specs.Created.{AreFaultyObjects, CreatesStore, DescribesObjects, FindsAmong, HasCreateFault, IsCreated, LeavesWhole, CreatesDatabase};

use crate::faults::fault_of_making;
use command_files::{Fault, Source, Verdict, put_answer, read_file};
use database_files::Databases;
use declared_text::write_declared;
use declared_types::DeclaredType;
use durable_store::create;
use history_text::HistoryFile;
use journal::TypeText;
use object_trait::Event;
use object_types::{ObjectFault, accept_types};
use outputs::{Out, Sink};
use sqlite_trees::store::Alter;
use std::alloc::Global;
use store_files::{HistoryFormat, ObjectTypes, object_line, read_declared};
use store_text::ObjectLine;

/// What a new store is made of: the path at which it is made, and those of the objects and their types.
#[derive(Clone, Copy)]
pub struct NewStore<'a, 'w> {
    pub database: &'a str,
    pub objects: &'a str,
    pub types: &'w [&'a str],
}

/// `create DATABASE OBJECTS TYPE...`: the objects are read and then the types, each parsed before the next is opened;
/// object by object, its place is tested and its type is checked; and then the file is made, and put at its path when
/// it is whole. Its texts of types are the canonical ones.
///
/// # Errors
///
/// A text has a fault or can't be read, the objects have events, no TYPE word is at an object's place, an object of
/// another kind than escrow names a number, the database isn't made, memory was refused, or the output failed. Only
/// after the last of these there may be a new file at the path.
pub fn create_store<'a, S: Source, D: Databases, W: Out>(
    alloc: Global,
    asked: NewStore<'a, '_>,
    source: &mut S,
    databases: &mut D,
    out: &mut W,
) -> Result<Verdict, Fault<'a>>
    requires { W.fault out.old ≡ None }
    ensures comes { let words = map (λ p. p.now) asked.entry.types.now in let holds = S.holds source.old in
        Comes (CreatesStore (D.is_clean databases.new) (D.holds databases.new asked.entry.database.now) holds asked.entry.objects.now words)
        (HasCreateFault holds asked.entry.objects.now words) result (W.taken out.old) (W.taken out.new) }
    ensures whole { LeavesWhole (D.is_clean databases.new) (D.holds databases.old asked.entry.database.now) (D.holds databases.new asked.entry.database.now) }
{
    let objects = read_objects(alloc, asked.objects, source)?;
    let declared = read_declared(alloc, asked.types, source)?;
    let found = types_among(alloc, asked.objects, &declared, &objects)?;
    match found {
        ObjectTypes::Accepted(_) => {
            make_at(alloc, asked.database, &declared, objects, databases, out)
        }
        ObjectTypes::Refused { x, refusal } => {
            let line = object_line(alloc, x, refusal)?;
            put_answer(Verdict::No, line.as_bytes(), out)
        }
    }
}

/// The checked types of the objects that the text at a path names, among the declared ones.
///
/// # Errors
///
/// No type is at an object's place, an object of another kind than escrow names a number, or memory was refused.
pub fn types_among<'a>(
    alloc: Global,
    path: &'a str,
    declared: &[DeclaredType],
    objects: &[ObjectLine],
) -> Result<ObjectTypes, Fault<'a>>
    ensures { FindsAmong declared.now objects.now result }
{
    match accept_types(alloc, declared, objects) {
        Ok(types) => Ok(ObjectTypes::Accepted(types)),
        Err(ObjectFault::Refused { x, refusal }) => Ok(ObjectTypes::Refused { x, refusal }),
        Err(ObjectFault::NoType { x, place }) => Err(Fault::NoType { path, x, place }),
        Err(ObjectFault::NeedsEscrow { x }) => Err(Fault::ObjectNeedsEscrow { path, x }),
        Err(ObjectFault::NoMemory) => Err(Fault::NoMemory),
    }
}

/// The objects that the text at a path names, which has no events.
///
/// # Errors
///
/// The text has a fault or events, it can't be read, or memory was refused.
pub fn read_objects<'a, S: Source>(
    alloc: Global,
    path: &'a str,
    source: &mut S,
) -> Result<Vec<ObjectLine>, Fault<'a>>
    ensures read { IfOk result (λ objects. IfSome (S.holds source.old path.now) (λ text. DescribesObjects text objects.items)) }
    ensures refused { IfErr result (IsEarlyFault (IfSome (S.holds source.old path.now) AreFaultyObjects)) }
    ensures kept { (other : List ℕ) → S.holds source.new other ≡ S.holds source.old other }
{
    let history = read_file(alloc, &HistoryFormat, path, source)?;
    if has_none(&history.events) {
        let HistoryFile {
            size: _,
            objects,
            events: _,
        } = history;
        Ok(objects)
    } else {
        Err(Fault::HasEvents { path })
    }
}

/// Whether there is no event.
fn has_none(events: &[Event]) -> bool
    ensures none { result ≡ true → events.now ≡ [] }
    ensures some { result ≡ false → events.now ≢ [] }
{
    events.is_empty()
}

/// Makes the file of a new store at a path, and answers that it is made.
fn make_at<'a, D: Databases, W: Out>(
    alloc: Global,
    path: &'a str,
    declared: &[DeclaredType],
    objects: Vec<ObjectLine>,
    databases: &mut D,
    out: &mut W,
) -> Result<Verdict, Fault<'a>>
    requires { W.fault out.old ≡ None }
    ensures comes { Comes (CreatesDatabase (D.is_clean databases.new) (D.holds databases.new path.now) declared.now objects.items) ⊥ result (W.taken out.old) (W.taken out.new) }
    ensures whole { LeavesWhole (D.is_clean databases.new) (D.holds databases.old path.now) (D.holds databases.new path.now) }
{
    make_store(alloc, path, declared, objects, databases)?;
    put_answer(Verdict::Yes, b"", out)
}

/// Bytes that no other store has.
fn new_id<'a, D: Databases>(path: &'a str, databases: &mut D) -> Result<[u8; 16], Fault<'a>>
    ensures refused { IfErr result (IsEarlyFault ⊥) }
    ensures kept { D.holds databases.new path.now ≡ D.holds databases.old path.now }
{
    match databases.id() {
        Ok(id) => Ok(id),
        Err(fault) => Err(Fault::of_database(path, fault)),
    }
}

/// The trees of a new database for a path.
fn new_trees<'a, D: Databases>(path: &'a str, databases: &mut D) -> Result<D::Opened, Fault<'a>>
    ensures numbered { IfOk result (λ trees. IsClean (D.Opened.Store.view trees) → IsTrue (D.Opened.Store.view trees).is_numbered) }
    ensures refused { IfErr result (IsEarlyFault ⊥) }
    ensures kept { D.holds databases.new path.now ≡ D.holds databases.old path.now }
{
    match databases.create(path) {
        Ok(trees) => Ok(trees),
        Err(fault) => Err(Fault::of_database(path, fault)),
    }
}

/// Makes the file of a new store at a path. Where it isn't made the path has what it had.
fn make_store<'a, D: Databases>(
    alloc: Global,
    path: &'a str,
    declared: &[DeclaredType],
    objects: Vec<ObjectLine>,
    databases: &mut D,
) -> Result<(), Fault<'a>>
    ensures made { OnOk result (D.is_clean databases.new → IfSome (D.holds databases.new path.now) (IsCreated declared.now objects.items)) }
    ensures kept { OnErr result (D.holds databases.new path.now ≡ D.holds databases.old path.now) }
    ensures refused { IfErr result (IsEarlyFault ⊥) }
{
    let texts = texts_of(alloc, declared)?;
    let id = new_id(path, databases)?;
    let trees = new_trees(path, databases)?;
    match make_in(alloc, path, trees, id, texts, objects) {
        Ok(trees) => publish(path, trees, databases),
        Err((fault, trees)) => {
            databases.discard(path, trees);
            Err(fault)
        }
    }
}

/// Makes the file of a new store in these trees, which come back.
fn make_in<'a, S: Alter>(
    alloc: Global,
    path: &'a str,
    trees: S,
    id: [u8; 16],
    texts: Vec<TypeText>,
    objects: Vec<ObjectLine>,
) -> Result<S, (Fault<'a>, S)>
    requires { IsClean (S.Store.view trees) → IsTrue (S.Store.view trees).is_numbered }
    ensures made { IfOk result (λ trees. IsClean (S.Store.view trees) → IsNewFile id texts.items objects.items (contents_of (S.Store.view trees).committed)) }
    ensures is_open { IfOk result (λ trees. IsClean (S.Store.view trees) → IsTrue (S.Store.view trees).is_open) }
    ensures refused { IfErr result (λ e. IsEarlyFault ⊥ e.0) }
{
    match create(alloc, trees, id, texts, objects) {
        Ok(trees) => Ok(trees),
        Err((error, trees)) => Err((fault_of_making(path, error), trees)),
    }
}

/// Puts what was made in these trees at a path.
fn publish<'a, D: Databases>(
    path: &'a str,
    trees: D::Opened,
    databases: &mut D,
) -> Result<(), Fault<'a>>
    ensures clean { OnOk result (D.is_clean databases.new → IsClean (D.Opened.Store.view trees)) }
    ensures held { OnOk result (IsClean (D.Opened.Store.view trees) → IfSome (D.holds databases.new path.now) (λ db. (D.Opened.Store.view trees).committed ≡ db)) }
    ensures kept { OnErr result (D.holds databases.new path.now ≡ D.holds databases.old path.now) }
    ensures refused { IfErr result (IsEarlyFault ⊥) }
{
    match databases.publish(path, trees) {
        Ok(()) => Ok(()),
        Err(fault) => Err(Fault::of_database(path, fault)),
    }
}

/// The canonical texts of types.
pub fn texts_of<'a>(alloc: Global, types: &[DeclaredType]) -> Result<Vec<TypeText>, Fault<'a>>
    ensures texts { IfOk result (λ texts. texts.items ≡ map canonical_text types.now) }
    ensures failed { IfErr result (λ fault. fault ≡ NoMemory) }
{
    let mut texts = Vec::with_capacity(alloc, types.len())?;
    for declared in types {
        texts.push_reserved(text_of(alloc, declared)?);
    }
    Ok(texts)
}

/// The canonical text of a type.
fn text_of<'a>(alloc: Global, declared: &DeclaredType) -> Result<TypeText, Fault<'a>>
    ensures text { IfOk result (λ text. text ≡ canonical_text declared.now) }
    ensures failed { IfErr result (λ fault. fault ≡ NoMemory) }
{
    let mut text = Sink::new(Vec::new(alloc));
    match write_declared(declared, &mut text) {
        Ok(()) => Ok(TypeText::new(text.into_inner())),
        Err(_) => Err(Fault::NoMemory),
    }
}
