//! The end of an epoch: its history goes to an archive, before the file begins anew.

ghost use Rattle.std.specs.Prelude.{◌≡◌, [], ◌∷◌, Some, false, true, is_some, OnOk, IfOk};
ghost use Rattle.journal.specs.Journal.{Clean, ShowsCommit, durable, written};
ghost use Rattle.durable_store.specs.Durable.{IsDurable, kinds, with_all, OutcomesStay, WritesSince};
ghost use Rattle.durable_store.specs.Epochs.{GoesOver, LeavesEpoch, renewed_with};
ghost use Rattle.serving.specs.EpochEnd.{EndsEpoch, EndsInEpoch, LeavesClosed, LeavesEnd, LeavesNext};
ghost use Rattle.serving.specs.NextEpoch.{IsNextFile, IsNextStore, late_answer};
ghost use Rattle.serving.specs.Archives.{KeepsEpochs, text_of_epoch};
ghost use Rattle.serving.specs.Epochs.{LeavesEpochs, WritesEpochs, closed_by, closings};
ghost use Rattle.serving.specs.Follows.{LeavesMore, LeavesWritten, WritesMore};
ghost use Rattle.serving.specs.Requests.{LetsGo};
ghost use Rattle.epoch_text.specs.EpochText.{text_with_lines};

use crate::answer_line::{AnswerLine, Answered};
use crate::archive::Archive;
use crate::extension::Extension;
use crate::serve_fault::ServeFault;
use durable_store::Durable;
use epoch_text::{lines_are_canonical, write_epoch};
use journal::JournalError;
use outputs::Sink;
use sqlite_trees::store::Alter;
use std::alloc::Global;
use store_text::ObjectLine;

/// Gives the history of the epoch to the archive, and begins another epoch, all of it durable: with the objects of what waits, which is
/// answered then. Where what is open isn't to go over, all of it is aborted before that isn't prepared.
///
/// # Errors
///
/// The file or the archive failed, or memory was refused: who opens the file again finds what was open and wasn't prepared aborted. It has
/// begun anew only where the archive keeps the history. Or what is to go over can't, since some yes is one-way.
pub(crate) fn end_epoch<S: Alter, A: Archive>(
    alloc: Global,
    mut store: Durable<S>,
    goes: bool,
    waiting: Option<Extension>,
    archive: &mut A,
) -> (Durable<S>, Result<Option<Answered>, ServeFault>)
    requires { IsDurable S.Store store }
    ensures late { IfOk result.1 (λ late. late ≡ late_answer waiting store.store) }
    ensures sound { OnOk result.1 (IsDurable S.Store result.0) }
    ensures ends { OnOk result.1 (EndsEpoch S.Store goes waiting store result.0) }
    ensures writes { OnOk result.1 (WritesEpochs S.Store store result.0 (A.kept archive.old) (A.kept archive.new)) }
    ensures shows { OnOk result.1 (ShowsCommit S.Store result.0.journal) }
    ensures settled { OnOk result.1 (Clean S.Store result.0.journal → durable S.Store result.0.journal ≡ written S.Store result.0.journal) }
    ensures clean { Clean S.Store result.0.journal → Clean S.Store store.journal }
    ensures left { LeavesEnd S.Store goes waiting store result.0 }
    ensures crash { LeavesEpochs S.Store store result.0 (A.kept archive.old) (A.kept archive.new) }
{
    match close_epoch(alloc, &mut store, goes, waiting.is_some(), archive) {
        Ok(()) => begin_next(alloc, store, waiting),
        Err(fault) => (store, Err(fault)),
    }
}

/// Aborts what is open and isn't prepared, unless it is to go over, and gives the history of the epoch to the archive. What was written may be
/// asked to be durable.
///
/// # Errors
///
/// The file or the archive failed, or memory was refused.
fn close_epoch<S: Alter, A: Archive>(
    alloc: Global,
    store: &mut Durable<S>,
    goes: bool,
    settled: bool,
    archive: &mut A,
) -> Result<(), ServeFault>
    requires { IsDurable S.Store store.old }
    ensures keeps { OnOk result (Clean S.Store store.new.journal → KeepsEpochs (A.kept archive.old) (A.kept archive.new) (written S.Store store.new.journal ∷ [])) }
    ensures sound { OnOk result (IsDurable S.Store store.new) }
    ensures shows { OnOk result (settled ≡ true → ShowsCommit S.Store store.new.journal) }
    ensures prepared { OnOk result (store.new.prepared ≡ store.old.prepared) }
    ensures store { OnOk result (LetsGo (closed_by goes store.old.prepared.items store.old.store) store.new.store) }
    ensures life { OnOk result (store.new.journal.header ≡ store.old.journal.header) }
    ensures written { OnOk result (Clean S.Store store.new.journal
        → written S.Store store.new.journal ≡ with_all (written S.Store store.old.journal) (closings goes store.old.prepared.items store.old.store)) }
    ensures clean { Clean S.Store store.new.journal → Clean S.Store store.old.journal }
    ensures left { LeavesClosed S.Store goes store.old store.new }
    ensures crash { LeavesEpochs S.Store store.old store.new (A.kept archive.old) (A.kept archive.new) }
{
    abort_unless(alloc, store, goes)?;
    archive_epoch(alloc, store, settled, archive)
}

/// Aborts what is open and isn't prepared, unless it is to go over.
///
/// # Errors
///
/// As `Durable::abort_unprepared`.
fn abort_unless<S: Alter>(
    alloc: Global,
    store: &mut Durable<S>,
    goes: bool,
) -> Result<(), JournalError>
    requires { IsDurable S.Store store.old }
    ensures sound { OnOk result (IsDurable S.Store store.new) }
    ensures prepared { OnOk result (store.new.prepared ≡ store.old.prepared) }
    ensures store { OnOk result (store.new.store ≡ closed_by goes store.old.prepared.items store.old.store) }
    ensures life { store.new.journal.header ≡ store.old.journal.header }
    ensures written { OnOk result (WritesSince S.Store store.old store.new) }
    ensures clean { Clean S.Store store.new.journal → Clean S.Store store.old.journal }
    ensures crash { OutcomesStay S.Store store.old store.new }
{
    if goes {
        Ok(())
    } else {
        store.abort_unprepared(alloc)
    }
}

/// Aborts what is open and isn't prepared, durable. The epoch goes on where the file is opened again.
///
/// # Errors
///
/// The file failed, or memory was refused: who opens the file again finds the same.
pub(crate) fn stop_in_epoch<S: Alter>(
    alloc: Global,
    store: &mut Durable<S>,
) -> Result<(), JournalError>
    requires { IsDurable S.Store store.old }
    ensures goes_on { OnOk result (EndsInEpoch S.Store store.old store.new) }
    ensures sound { OnOk result (IsDurable S.Store store.new) }
    ensures shows { OnOk result (ShowsCommit S.Store store.new.journal) }
    ensures writes { OnOk result (WritesMore S.Store store.old store.new) }
    ensures clean { Clean S.Store store.new.journal → Clean S.Store store.old.journal }
    ensures left { LeavesClosed S.Store false store.old store.new }
    ensures crash { LeavesMore S.Store store.old store.new }
{
    store.abort_unprepared(alloc)?;
    store.settle()
}

/// Gives the history of the present epoch to an archive that asks for it. What was written may be asked to be durable.
///
/// # Errors
///
/// As `keep_epoch`.
pub(crate) fn archive_epoch<S: Alter, A: Archive>(
    alloc: Global,
    store: &mut Durable<S>,
    settled: bool,
    archive: &mut A,
) -> Result<(), ServeFault>
    requires { IsDurable S.Store store.old }
    ensures keeps { OnOk result (Clean S.Store store.new.journal → KeepsEpochs (A.kept archive.old) (A.kept archive.new) (written S.Store store.new.journal ∷ [])) }
    ensures sound { OnOk result (IsDurable S.Store store.new) }
    ensures shows { OnOk result (settled ≡ true → ShowsCommit S.Store store.new.journal) }
    ensures lets_go { OnOk result (LetsGo store.old.store store.new.store) }
    ensures prepared { OnOk result (store.new.prepared ≡ store.old.prepared) }
    ensures life { OnOk result (store.new.journal.header ≡ store.old.journal.header) }
    ensures written { OnOk result (Clean S.Store store.new.journal → written S.Store store.new.journal ≡ written S.Store store.old.journal) }
    ensures clean { Clean S.Store store.new.journal → Clean S.Store store.old.journal }
    ensures left { LeavesWritten S.Store store.old store.new }
    ensures crash { LeavesEpochs S.Store store.old store.new (A.kept archive.old) (A.kept archive.new) }
{
    if archive.wants() {
        keep_epoch(alloc, store, archive)
    } else {
        settle_where(store, settled)?;
        Ok(())
    }
}

/// Makes durable all that was written, where it is asked to.
///
/// # Errors
///
/// As `Durable::settle`.
fn settle_where<S: Alter>(store: &mut Durable<S>, asked: bool) -> Result<(), JournalError>
    requires { IsDurable S.Store store.old }
    ensures sound { OnOk result (IsDurable S.Store store.new) }
    ensures shows { OnOk result (asked ≡ true → ShowsCommit S.Store store.new.journal) }
    ensures lets_go { OnOk result (LetsGo store.old.store store.new.store) }
    ensures prepared { OnOk result (store.new.prepared ≡ store.old.prepared) }
    ensures life { store.new.journal.header ≡ store.old.journal.header }
    ensures written { OnOk result (Clean S.Store store.new.journal → written S.Store store.new.journal ≡ written S.Store store.old.journal) }
    ensures clean { Clean S.Store store.new.journal → Clean S.Store store.old.journal }
    ensures left { LeavesWritten S.Store store.old store.new }
{
    if asked { store.settle() } else { Ok(()) }
}

/// Makes the present epoch durable, and gives its history to an archive, as the file has it.
///
/// # Errors
///
/// The file or the archive failed, or memory was refused.
fn keep_epoch<S: Alter, A: Archive>(
    alloc: Global,
    store: &mut Durable<S>,
    archive: &mut A,
) -> Result<(), ServeFault>
    requires { IsDurable S.Store store.old }
    ensures keeps { OnOk result (Clean S.Store store.new.journal → KeepsEpochs (A.kept archive.old) (A.kept archive.new) (written S.Store store.new.journal ∷ [])) }
    ensures sound { OnOk result (IsDurable S.Store store.new) }
    ensures shows { OnOk result (ShowsCommit S.Store store.new.journal) }
    ensures lets_go { OnOk result (LetsGo store.old.store store.new.store) }
    ensures prepared { OnOk result (store.new.prepared ≡ store.old.prepared) }
    ensures life { OnOk result (store.new.journal.header ≡ store.old.journal.header) }
    ensures written { OnOk result (Clean S.Store store.new.journal → written S.Store store.new.journal ≡ written S.Store store.old.journal) }
    ensures clean { Clean S.Store store.new.journal → Clean S.Store store.old.journal }
    ensures left { LeavesWritten S.Store store.old store.new }
    ensures crash { LeavesEpochs S.Store store.old store.new (A.kept archive.old) (A.kept archive.new) }
{
    store.settle()?;
    let text = epoch_text(alloc, store)?;
    archive.keep(store.header(), &text)?;
    Ok(())
}

/// The text of the present epoch, of what the file has, while all that was written is durable.
///
/// # Errors
///
/// The file failed, or memory was refused.
fn epoch_text<S: Alter>(alloc: Global, store: &mut Durable<S>) -> Result<Vec<u8>, ServeFault>
    requires sound { IsDurable S.Store store.old }
    requires shows { ShowsCommit S.Store store.old.journal }
    ensures text { IfOk result (λ text. Clean S.Store store.new.journal → text.items ≡ text_of_epoch (written S.Store store.old.journal)) }
    ensures sound { OnOk result (IsDurable S.Store store.new) }
    ensures still_shows { OnOk result (ShowsCommit S.Store store.new.journal) }
    ensures store { store.new.store ≡ store.old.store }
    ensures prepared { store.new.prepared ≡ store.old.prepared }
    ensures life { store.new.journal.header ≡ store.old.journal.header }
    ensures written { OnOk result (Clean S.Store store.new.journal → written S.Store store.new.journal ≡ written S.Store store.old.journal) }
    ensures clean { Clean S.Store store.new.journal → Clean S.Store store.old.journal }
    ensures crash { OutcomesStay S.Store store.old store.new }
{
    lines_are_canonical();
    let objects = store.objects(alloc)?;
    let lines = store.event_lines(alloc)?;
    text_of(alloc, &objects, &lines)
}

/// The text of a history of these objects, with these lines of events.
///
/// # Errors
///
/// Memory was refused.
fn text_of(alloc: Global, objects: &[ObjectLine], lines: &[u8]) -> Result<Vec<u8>, ServeFault>
    ensures { IfOk result (λ text. text.items ≡ text_with_lines objects.now lines.now) }
{
    let mut text = Sink::new(Vec::new(alloc));
    match write_epoch(objects, lines, &mut text) {
        Ok(()) => Ok(text.into_inner()),
        Err(_) => Err(ServeFault::NoMemory),
    }
}

/// Begins another epoch, where nothing is open but what goes over: with the objects of what waits, which is answered then.
///
/// # Errors
///
/// The file failed, or memory was refused.
fn begin_next<S: Alter>(
    alloc: Global,
    store: Durable<S>,
    waiting: Option<Extension>,
) -> (Durable<S>, Result<Option<Answered>, ServeFault>)
    requires sound { IsDurable S.Store store }
    requires shows { is_some waiting ≡ true → ShowsCommit S.Store store.journal }
    ensures late { IfOk result.1 (λ late. late ≡ late_answer waiting store.store) }
    ensures sound { OnOk result.1 (IsDurable S.Store result.0) }
    ensures store { OnOk result.1 (IsNextStore waiting store.prepared.items store.store result.0.store result.0.prepared.items) }
    ensures durable { OnOk result.1 (Clean S.Store result.0.journal → IsNextFile waiting store.prepared.items store.store result.0.store result.0.prepared.items (written S.Store store.journal) (durable S.Store result.0.journal)) }
    ensures shows { OnOk result.1 (ShowsCommit S.Store result.0.journal) }
    ensures last { OnOk result.1 (Clean S.Store result.0.journal → (written S.Store store.journal).headers ≡ store.journal.header ∷ []) }
    ensures clean { Clean S.Store result.0.journal → Clean S.Store store.journal }
    ensures crash { LeavesNext S.Store waiting store result.0 }
{
    match waiting {
        Some(extension) => extend(alloc, store, extension),
        None => {
            let (store, renewed) = renew(alloc, store);
            match renewed {
                Ok(()) => (store, Ok(None)),
                Err(fault) => (store, Err(fault)),
            }
        }
    }
}

/// Begins another epoch with more objects, where nothing is open but what goes over, and answers that they are there.
///
/// # Errors
///
/// As `begin_next`.
fn extend<S: Alter>(
    alloc: Global,
    store: Durable<S>,
    extension: Extension,
) -> (Durable<S>, Result<Option<Answered>, ServeFault>)
    requires sound { IsDurable S.Store store }
    requires shows { ShowsCommit S.Store store.journal }
    ensures late { IfOk result.1 (λ late. late ≡ late_answer (Some extension) store.store) }
    ensures sound { OnOk result.1 (IsDurable S.Store result.0) }
    ensures store { OnOk result.1 (IsNextStore (Some extension) store.prepared.items store.store result.0.store result.0.prepared.items) }
    ensures durable { OnOk result.1 (Clean S.Store result.0.journal → IsNextFile (Some extension) store.prepared.items store.store result.0.store result.0.prepared.items (written S.Store store.journal) (durable S.Store result.0.journal)) }
    ensures shows { OnOk result.1 (ShowsCommit S.Store result.0.journal) }
    ensures last { OnOk result.1 (Clean S.Store result.0.journal → (written S.Store store.journal).headers ≡ store.journal.header ∷ []) }
    ensures clean { Clean S.Store result.0.journal → Clean S.Store store.journal }
    ensures crash { LeavesNext S.Store (Some extension) store result.0 }
{
    let Extension { tag, added } = extension;
    let (store, extended) = store.extend(alloc, &added.texts, &added.lines);
    match extended {
        Ok(first) => {
            let answer = AnswerLine::Extended { first };
            (store, Ok(Some(Answered { tag, answer })))
        }
        Err(error) => (store, Err(ServeFault::from(error))),
    }
}

/// Begins another epoch, where nothing is open but what goes over.
fn renew<S: Alter>(alloc: Global, store: Durable<S>) -> (Durable<S>, Result<(), ServeFault>)
    requires { IsDurable S.Store store }
    ensures sound { OnOk result.1 (IsDurable S.Store result.0) }
    ensures store { OnOk result.1 (GoesOver [] store.store store.prepared.items result.0.store result.0.prepared.items) }
    ensures durable { OnOk result.1 (Clean S.Store result.0.journal → durable S.Store result.0.journal ≡ renewed_with (written S.Store store.journal) result.0.store.types (kinds result.0.store.history) result.0.prepared.items) }
    ensures shows { OnOk result.1 (ShowsCommit S.Store result.0.journal) }
    ensures last { OnOk result.1 (Clean S.Store result.0.journal → (written S.Store store.journal).headers ≡ store.journal.header ∷ []) }
    ensures clean { Clean S.Store result.0.journal → Clean S.Store store.journal }
    ensures crash { LeavesEpoch S.Store store result.0 }
{
    let (store, answer) = store.renew(alloc);
    let ended = match answer {
        Ok(Ok(())) => Ok(()),
        Ok(Err(_)) => Err(ServeFault::NoMemory),
        Err(error) => Err(ServeFault::Journal(error)),
    };
    (store, ended)
}
