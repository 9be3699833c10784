//! The file of a new store.

ghost use Rattle.std.specs.Prelude.{◌≡◌, map, IfErr, IfOk, IsTrue};
ghost use Rattle.std.specs.Arc.{arc_value};
ghost use Rattle.sqlite_trees.specs.View.{IsClean};
ghost use Rattle.journal.specs.Contents.{contents_of};
ghost use Rattle.journal.specs.Said.{contents};
ghost use Rattle.durable_store.specs.Created.{IsLeft, IsNewFile};
ghost use Rattle.durable_store.specs.Epochs.{firsts};

use crate::begun_types::declared_in;
use crate::open_error::OpenError;
use journal::{FORMAT, FileContents, FirstState, Header, Journal, TypeText};
use object_types::accept_types;
use sqlite_trees::store::Alter;
use std::alloc::{AllocError, Global};
use std::sync::Arc;
use store_text::ObjectLine;
use table_checker::CheckedType;

/// Makes the file of a new store in these trees, of which there are none yet: with the texts of types, and objects
/// that begin at the initial states of theirs. No other store has these bytes.
///
/// # Errors
///
/// `Text` or `Untyped`, and the trees are as they were; or `Journal`, or `NoMemory`. The trees come back.
pub fn create<S: Alter>(
    alloc: Global,
    trees: S,
    id: [u8; 16],
    texts: Vec<TypeText>,
    lines: Vec<ObjectLine>,
) -> Result<S, (OpenError, S)>
    requires { IsClean (S.Store.view trees) → IsTrue (S.Store.view trees).is_numbered }
    ensures created { IfOk result (λ trees. IsClean (S.Store.view trees) → IsNewFile id texts.items lines.items (contents_of (S.Store.view trees).committed)) }
    ensures is_open { IfOk result (λ trees. IsClean (S.Store.view trees) → IsTrue (S.Store.view trees).is_open) }
    ensures left { IfErr result (λ e. IsLeft e.0 trees e.1) }
    ensures numbered { IfOk result (λ trees. IsClean (S.Store.view trees) → IsTrue (S.Store.view trees).is_numbered) }
{
    let said = match new_contents(alloc, id, texts, lines) {
        Ok(said) => said,
        Err(error) => return Err((error, trees)),
    };
    match Journal::create(alloc, trees, &said) {
        Ok(journal) => Ok(journal.into_store()),
        Err((error, trees)) => Err((OpenError::Journal(error), trees)),
    }
}

/// What the file of a new store says.
///
/// # Errors
///
/// `Text`, `Untyped` or `NoMemory`.
fn new_contents(
    alloc: Global,
    id: [u8; 16],
    texts: Vec<TypeText>,
    lines: Vec<ObjectLine>,
) -> Result<FileContents, OpenError>
    ensures { IfOk result (λ said. IsNewFile id texts.items lines.items (contents said)) }
{
    let declared = declared_in(alloc, &texts)?;
    let types = accept_types(alloc, &declared, &lines)?;
    let states = states_of(alloc, &types)?;
    let header = Header {
        format: FORMAT,
        id,
        life: 0,
    };
    Ok(FileContents {
        header,
        types: texts,
        objects: lines,
        states,
        events: Vec::new(alloc),
        prepared: Vec::new(alloc),
    })
}

/// The initial states of types.
fn states_of(alloc: Global, types: &[Arc<CheckedType>]) -> Result<Vec<FirstState>, AllocError>
    ensures { IfOk result (λ states. states.items ≡ firsts (map arc_value types.now)) }
{
    let mut states = Vec::new(alloc);
    for checked in types {
        let state = checked.initial();
        states.push(FirstState { state })?;
    }
    Ok(states)
}
