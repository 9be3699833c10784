//! `extend`: more objects for the store in a file.

ghost use Rattle.std.specs.Prelude.{◌≡◌, ⊤, ◌+◌, [], List, None, Some, map, IfErr, IfOk, IsTrue, OnOk};
ghost use Rattle.sqlite_trees.specs.View.{IsClean};
ghost use Rattle.store_laws.specs.Stored.{Stored};
ghost use Rattle.journal.specs.Contents.{contents_of};
ghost use Rattle.journal.specs.Journal.{Clean, IsJournal, IsOpen, ShowsCommit, durable, written};
ghost use Rattle.journal.specs.Said.{contents_beside};
ghost use Rattle.durable_store.specs.Durable.{IsDurable};
ghost use Rattle.durable_store.specs.Growth.{Grows};
ghost use Rattle.journal.specs.declared.prepared_row.Prepared.{Prepared};
ghost use Rattle.command_files.specs.Answers.{Comes, IsEarlyFault};
ghost use Rattle.command_files.specs.declared.fault.Fault.TheVariants.{NoMemory};
ghost use Rattle.store_files.specs.Lines.{refused_object_line};
ghost use Rattle.database_commands.specs.Extended.{AnswersFound, ExtendsStore, HasGrown};

use crate::faults::{fault_of_journal, fault_of_making, fault_of_open, fault_of_unopened};
use crate::new_store::{NewStore, read_objects, texts_of, types_among};
use command_files::{Fault, Source, Verdict, put_answer};
use database_files::{Databases, TornWrites};
use durable_store::{Durable, OpenError, file_limits, resume};
use journal::{FileContents, Journal, TypeText};
use outputs::Out;
use sqlite_trees::store::Alter;
use std::alloc::Global;
use store::CarryRefusal;
use store_files::{ObjectTypes, object_line, read_declared};
use store_text::ObjectLine;
use table_checker::CheckRefusal;

/// The paths of a database and of the text that has the objects.
#[derive(Clone, Copy)]
struct Paths<'a> {
    database: &'a str,
    objects: &'a str,
}

/// What the command answers.
#[derive(Drop)]
struct Answer {
    verdict: Verdict,
    text: String,
}

/// `extend DATABASE OBJECTS TYPE...`: the objects are read and then the types, each parsed before the next is opened;
/// object by object, its place is tested and its type is checked. Then the database is opened, what was open in it and
/// isn't prepared is aborted, and the objects are added behind those that it has, at the initial states of their types, in one commit.
/// Where a type isn't accepted the file is as it was. The events of the epoch that ends are let go.
///
/// # Errors
///
/// As of `create_store` for the texts; the database isn't opened, isn't one of a store or fails, it would have more
/// objects than a store may have, a name is taken, memory was refused, or the output failed. After the last of these the
/// objects may be there.
pub fn extend_store<'a, S: Source, D: Databases, W: Out>(
    alloc: Global,
    asked: NewStore<'a, '_>,
    source: &mut S,
    databases: &mut D,
    out: &mut W,
) -> Result<Verdict, Fault<'a>>
    requires { W.fault out.old ≡ None }
    ensures { let words = map (λ p. p.now) asked.entry.types.now in let path = asked.entry.database.now in
        Comes (ExtendsStore (D.is_clean databases.new) (D.holds databases.old path) (D.holds databases.new path) (S.holds source.old) asked.entry.objects.now words)
        ⊤ result (W.taken out.old) (W.taken out.new) }
{
    let objects = read_objects(alloc, asked.objects, source)?;
    let declared = read_declared(alloc, asked.types, source)?;
    let found = types_among(alloc, asked.objects, &declared, &objects)?;
    let texts = texts_of(alloc, &declared)?;
    let paths = Paths {
        database: asked.database,
        objects: asked.objects,
    };
    let answer = extend_at(alloc, paths, &texts, &objects, found, databases)?;
    put_answer(answer.verdict, answer.text.as_bytes(), out)
}

/// Adds objects to the store at a path, where their types were accepted.
fn extend_at<'a, D: Databases>(
    alloc: Global,
    paths: Paths<'a>,
    texts: &[TypeText],
    objects: &[ObjectLine],
    found: ObjectTypes,
    databases: &mut D,
) -> Result<Answer, Fault<'a>>
    ensures answers { IfOk result (λ a. AnswersFound (D.is_clean databases.new) (D.holds databases.old paths.entry.database.now) (D.holds databases.new paths.entry.database.now) texts.now objects.now found a.verdict a.text.bytes.items) }
    ensures refused { IfErr result (IsEarlyFault ⊤) }
{
    match databases.open(paths.database, TornWrites::AnyBytes) {
        Ok(trees) => {
            let (answer, trees) = extend_in(alloc, paths, texts, objects, found, trees);
            match answer {
                Ok(answer) => {
                    databases.close(paths.database, trees);
                    Ok(answer)
                }
                Err(fault) => {
                    databases.leave(paths.database, trees);
                    Err(fault)
                }
            }
        }
        Err(fault) => Err(fault_of_unopened(paths.database, fault)),
    }
}

/// The same of the store in these trees, which come back.
fn extend_in<'a, S: Alter>(
    alloc: Global,
    paths: Paths<'a>,
    texts: &[TypeText],
    objects: &[ObjectLine],
    found: ObjectTypes,
    trees: S,
) -> (Result<Answer, Fault<'a>>, S)
    requires { IsClean (S.Store.view trees) → IsTrue (S.Store.view trees).is_numbered }
    ensures answers { IfOk result.0 (λ a. AnswersFound (IsClean (S.Store.view result.1)) (Some (S.Store.view trees).committed) (Some (S.Store.view result.1).committed) texts.now objects.now found a.verdict a.text.bytes.items) }
    ensures clean { IfOk result.0 (λ _. IsClean (S.Store.view result.1) → IsClean (S.Store.view trees)) }
    ensures was_open { IfOk result.0 (λ _. IsClean (S.Store.view result.1) → IsTrue (S.Store.view trees).is_open) }
    ensures refused { IfErr result.0 (IsEarlyFault ⊤) }
{
    let (journal, said) = match Journal::open(alloc, trees) {
        Ok(opened) => opened,
        Err((error, trees)) => return (Err(fault_of_journal(paths.database, error)), trees),
    };
    match found {
        ObjectTypes::Refused { x, refusal } => {
            let answer = refused(alloc, said.objects.len(), x, refusal);
            (answer, journal.into_store())
        }
        ObjectTypes::Accepted(_) => grow(alloc, paths, journal, &said, texts, objects),
    }
}

/// The answer that the type of the object at x behind so many others isn't accepted.
fn refused<'a>(
    alloc: Global,
    before: usize,
    x: usize,
    refusal: CheckRefusal,
) -> Result<Answer, Fault<'a>>
    ensures no { IfOk result (λ a. (a.verdict ≡ Verdict.No) × (a.text.bytes.items ≡ refused_object_line (before + x) refusal)) }
    ensures failed { IfErr result (λ fault. fault ≡ NoMemory) }
{
    let Some(number) = before.checked_add(x) else {
        return Err(Fault::NoMemory);
    };
    Ok(Answer {
        verdict: Verdict::No,
        text: object_line(alloc, number, refusal)?,
    })
}

/// Adds objects to the store of a journal that was just opened, and what it says. Its trees come back.
fn grow<'a, S: Alter>(
    alloc: Global,
    paths: Paths<'a>,
    journal: Journal<S>,
    said: &FileContents,
    texts: &[TypeText],
    objects: &[ObjectLine],
) -> (Result<Answer, Fault<'a>>, S)
    requires journal { IsJournal S.Store journal }
    requires same { Clean S.Store journal → written S.Store journal ≡ durable S.Store journal }
    requires said { Clean S.Store journal → durable S.Store journal ≡ contents_beside (durable S.Store journal).outcomes said.now }
    requires is_open { Clean S.Store journal → IsOpen S.Store journal }
    ensures yes { IfOk result.0 (λ a. (a.verdict ≡ Verdict.Yes) × (a.text.bytes.items ≡ [])) }
    ensures extended { OnOk result.0 (IsClean (S.Store.view result.1) → HasGrown texts.now objects.now (durable S.Store journal) (contents_of (S.Store.view result.1).committed)) }
    ensures clean { OnOk result.0 (IsClean (S.Store.view result.1) → Clean S.Store journal) }
    ensures refused { IfErr result.0 (IsEarlyFault ⊤) }
{
    let most = file_limits().objects as usize;
    if objects.len() > most.saturating_sub(said.objects.len()) {
        return (Err(Fault::TooLarge), journal.into_store());
    }
    match resume(alloc, journal, said) {
        Ok(store) => extend(alloc, paths, store, texts, objects),
        Err((error, trees)) => (Err(fault_of_open(paths.database, error)), trees),
    }
}

/// Adds objects to a store that was opened. Its trees come back.
fn extend<'a, S: Alter>(
    alloc: Global,
    paths: Paths<'a>,
    store: Durable<S>,
    texts: &[TypeText],
    objects: &[ObjectLine],
) -> (Result<Answer, Fault<'a>>, S)
    requires sound { IsDurable S.Store store }
    requires shows { ShowsCommit S.Store store.journal }
    ensures yes { IfOk result.0 (λ a. (a.verdict ≡ Verdict.Yes) × (a.text.bytes.items ≡ [])) }
    ensures grows { OnOk result.0 (IsClean (S.Store.view result.1) → (s : Stored) × (ps : List Prepared) × Grows texts.now objects.now store.store store.prepared.items s ps (written S.Store store.journal) (contents_of (S.Store.view result.1).committed)) }
    ensures clean { OnOk result.0 (IsClean (S.Store.view result.1) → Clean S.Store store.journal) }
    ensures refused { IfErr result.0 (IsEarlyFault ⊤) }
{
    let (store, extended) = store.extend(alloc, texts, objects);
    let trees = store.into_trees();
    match extended {
        Ok(_) => {
            let answer = Answer {
                verdict: Verdict::Yes,
                text: String::new(alloc),
            };
            (Ok(answer), trees)
        }
        Err(error) => (Err(fault_of_extending(paths, error)), trees),
    }
}

/// Why a store doesn't get more objects that were tested before.
fn fault_of_extending<'a>(paths: Paths<'a>, error: OpenError) -> Fault<'a>
    ensures { IsEarlyFault ⊤ result }
{
    match error {
        OpenError::NameTaken(x) => Fault::NameTaken {
            path: paths.objects,
            x,
        },
        OpenError::NotExtended(CarryRefusal::NoMemory) => Fault::NoMemory,
        _ => fault_of_making(paths.database, error),
    }
}
