//! A store that is made again of its file.

ghost use Rattle.std.specs.Prelude.{◌≡◌, ◌++◌, ◌∷◌, [], IfOk, OnOk, ◌⊎◌, length, IfErr, IsTrue, None, ◌↔◌};
ghost use Rattle.event_text.specs.EventText.{events_of_kinds};
ghost use Rattle.journal.specs.Said.{contents, contents_beside};
ghost use Rattle.store.specs.Retraces.{AreRetraced, IsRetraced, IsTracedHistory};
ghost use Rattle.durable_store.specs.Durable.{event_of_kind, IsDurable};
ghost use Rattle.durable_store.specs.Held.{ArePrepared, first_passing, has_place, undecided};
ghost use Rattle.transaction_key.specs.TransactionKey.{key_place};
ghost use Rattle.durable_store.specs.Recovered.{IsNotFollowed, IsNotMade, IsStoreOf, IsStrayError, IsRecovered, Recovers, recovered};
ghost use Rattle.sqlite_trees.specs.Tree.{Trees};
ghost use Rattle.sqlite_trees.specs.View.{IsClean};
ghost use Rattle.journal.specs.Contents.{IsFile, contents_of};
ghost use Rattle.journal.specs.Journal.{Clean, IsJournal, IsOpen, IsSettled, ShowsCommit, durable, may_leave, written};

use crate::begun_types::objects_of;
use crate::durable::Durable;
use crate::held_list::at_place;
use crate::limits::file_limits;
use crate::object_names::ObjectNames;
use crate::open_error::OpenError;
use journal::{FileContents, Journal, Prepared};
use object_trait::{Event, EventKind};
use objects::Object;
use sqlite_trees::store::Alter;
use std::alloc::Global;
use store::{Store, Stray, retrace};
use transaction_key::TransactionKey;

// how many events a store remembers while it follows those of a file
const MOST_REMEMBERED: usize = 65_536;

/// Opens the store in these trees: makes it again of its events, aborts what was open but for the transactions that
/// are prepared, begins the next life, and commits that. What wasn't committed is let go.
///
/// # Errors
///
/// The file isn't one of a store or failed, or memory was refused. The trees come back. `NotMade` comes only where a store
/// of the file's types makes no such history, and `NotPrepared` only where its rows of who is prepared are those of none: what
/// a durable store has written is never refused so.
pub fn open<S: Alter>(alloc: Global, trees: S) -> Result<Durable<S>, (OpenError, S)>
    requires { IsClean (S.Store.view trees) → IsTrue (S.Store.view trees).is_numbered }
    ensures sound { IfOk result (λ d. IsDurable S.Store d) }
    ensures clean { IfOk result (λ d. Clean S.Store d.journal → IsClean (S.Store.view trees)) }
    ensures is_open { IfOk result (λ d. Clean S.Store d.journal → IsOpen S.Store d.journal) }
    ensures shows { IfOk result (λ d. ShowsCommit S.Store d.journal) }
    ensures was_open { IfOk result (λ d. Clean S.Store d.journal → IsTrue (S.Store.view trees).is_open) }
    ensures found { IfOk result (λ d. Clean S.Store d.journal → IsRecovered S.Store (contents_of (S.Store.view trees).committed) d) }
    ensures crash { IfErr result (λ e. (db : Trees) → S.Store.recovers e.1 db
        → (IsClean (S.Store.view trees) × IsTrue (S.Store.view trees).is_open × IsFile db × (contents_of db ≡ recovered (contents_of (S.Store.view trees).committed))) ⊎ S.Store.recovers trees db) }
    ensures followed { IfErr result (λ e. IsStrayError e.0 → IsClean (S.Store.view e.1) → IsNotFollowed (contents_of (S.Store.view trees).committed)) }
{
    match open_counted(alloc, trees) {
        Ok((store, _)) => Ok(store),
        Err(stopped) => Err(stopped),
    }
}

/// The same, and how many events the file had.
///
/// # Errors
///
/// As `open`.
pub fn open_counted<S: Alter>(
    alloc: Global,
    trees: S,
) -> Result<(Durable<S>, usize), (OpenError, S)>
    requires { IsClean (S.Store.view trees) → IsTrue (S.Store.view trees).is_numbered }
    ensures sound { IfOk result (λ r. IsDurable S.Store r.0) }
    ensures clean { IfOk result (λ r. Clean S.Store r.0.journal → IsClean (S.Store.view trees)) }
    ensures is_open { IfOk result (λ r. Clean S.Store r.0.journal → IsOpen S.Store r.0.journal) }
    ensures shows { IfOk result (λ r. ShowsCommit S.Store r.0.journal) }
    ensures was_open { IfOk result (λ r. Clean S.Store r.0.journal → IsTrue (S.Store.view trees).is_open) }
    ensures found { IfOk result (λ r. Clean S.Store r.0.journal → IsRecovered S.Store (contents_of (S.Store.view trees).committed) r.0) }
    ensures counted { IfOk result (λ r. Clean S.Store r.0.journal → r.1 ≡ length (contents_of (S.Store.view trees).committed).events) }
    ensures crash { IfErr result (λ e. (db : Trees) → S.Store.recovers e.1 db
        → (IsClean (S.Store.view trees) × IsTrue (S.Store.view trees).is_open × IsFile db × (contents_of db ≡ recovered (contents_of (S.Store.view trees).committed))) ⊎ S.Store.recovers trees db) }
    ensures followed { IfErr result (λ e. IsStrayError e.0 → IsClean (S.Store.view e.1) → IsNotFollowed (contents_of (S.Store.view trees).committed)) }
{
    let (journal, said) = match Journal::open(alloc, trees) {
        Ok(opened) => opened,
        Err((error, trees)) => return Err((OpenError::Journal(error), trees)),
    };
    match resume(alloc, journal, &said) {
        Ok(store) => Ok((store, said.events.len())),
        Err(stopped) => Err(stopped),
    }
}

/// The same of a journal that was just opened, and what it says.
///
/// # Errors
///
/// As `open`.
pub fn resume<S: Alter>(
    alloc: Global,
    journal: Journal<S>,
    said: &FileContents,
) -> Result<Durable<S>, (OpenError, S)>
    requires journal { IsJournal S.Store journal }
    requires same { Clean S.Store journal → written S.Store journal ≡ durable S.Store journal }
    requires said { Clean S.Store journal → durable S.Store journal ≡ contents_beside (durable S.Store journal).outcomes said.now }
    requires is_open { Clean S.Store journal → IsOpen S.Store journal }
    ensures sound { IfOk result (λ d. IsDurable S.Store d) }
    ensures clean { IfOk result (λ d. Clean S.Store d.journal → Clean S.Store journal) }
    ensures is_open { IfOk result (λ d. Clean S.Store d.journal → IsOpen S.Store d.journal) }
    ensures shows { IfOk result (λ d. ShowsCommit S.Store d.journal) }
    ensures found { IfOk result (λ d. Clean S.Store d.journal → IsRecovered S.Store (durable S.Store journal) d) }
    ensures crash { IfErr result (λ e. (db : Trees) → S.Store.recovers e.1 db
        → (Clean S.Store journal × IsFile db × (contents_of db ≡ recovered (durable S.Store journal))) ⊎ may_leave S.Store journal db) }
    ensures followed { IfErr result (λ e. IsStrayError e.0 → IsClean (S.Store.view e.1) → Clean S.Store journal × IsNotFollowed (durable S.Store journal)) }
{
    journal.is_settled();
    let names = match ObjectNames::of(alloc, &said.objects) {
        Ok(names) => names,
        Err(_) => return Err((OpenError::NoMemory, journal.into_store())),
    };
    let store = match store_of(alloc, said) {
        Ok(store) => store,
        Err(error) => return Err((error, journal.into_store())),
    };
    let strong = store.is_strong();
    let mut journal = journal;
    match prepared_of(alloc, &store, &mut journal, &said.prepared) {
        Ok(prepared) => {
            let made = Durable {
                store,
                journal,
                names,
                prepared,
                strong,
            };
            recovered_or_back(alloc, made)
        }
        Err(error) => {
            let _ = store.close();
            Err((error, journal.into_store()))
        }
    }
}

/// The store after its recovery, or its trees.
fn recovered_or_back<S: Alter>(
    alloc: Global,
    made: Durable<S>,
) -> Result<Durable<S>, (OpenError, S)>
    requires { IsDurable S.Store made }
    ensures sound { IfOk result (λ d. IsDurable S.Store d) }
    ensures recovers { IfOk result (λ d. Recovers S.Store made d) }
    ensures crash { IfErr result (λ e. (db : Trees) → S.Store.recovers e.1 db
        → (Clean S.Store made.journal × IsFile db × (contents_of db ≡ recovered (written S.Store made.journal))) ⊎ may_leave S.Store made.journal db) }
    ensures strays { IfErr result (λ e. IsStrayError e.0 → ⊥) }
{
    let mut made = made;
    match made.recover(alloc) {
        Ok(()) => Ok(made),
        Err(error) => Err((OpenError::Journal(error), made.into_trees())),
    }
}

/// Those of these transactions that aren't decided, in a file whose history the store has.
///
/// # Errors
///
/// `NotPrepared` by the first row that no store writes; `Journal` or `NoMemory`.
fn prepared_of<S: Alter>(
    alloc: Global,
    store: &Store<Object>,
    journal: &mut Journal<S>,
    said: &[Prepared],
) -> Result<Vec<Prepared>, OpenError>
    requires journal { IsJournal S.Store journal.old }
    requires said { Clean S.Store journal.old → said.now ≡ (written S.Store journal.old).prepared }
    ensures prepared { IfOk result (λ ps. Clean S.Store journal.new → ArePrepared store.now.history (written S.Store journal.old) ps.items) }
    ensures strays { IfErr result (λ e. IsStrayError e → Clean S.Store journal.new → ArePrepared store.now.history (written S.Store journal.old) (undecided store.now.history said.now) → ⊥) }
    ensures kept { OnOk result (IsJournal S.Store journal.new) }
    ensures written { OnOk result (Clean S.Store journal.new → written S.Store journal.new ≡ written S.Store journal.old) }
    ensures durable { OnOk result (Clean S.Store journal.new → durable S.Store journal.new ≡ durable S.Store journal.old) }
    ensures header { journal.new.header ≡ journal.old.header }
    ensures clean { Clean S.Store journal.new → Clean S.Store journal.old }
    ensures crash { (db : Trees) → may_leave S.Store journal.new db → may_leave S.Store journal.old db }
{
    let begun = store.begun();
    let mut prepared = Vec::new(alloc);
    for (place, row) in said.iter().enumerate() {
        if row.number >= begun {
            return Err(OpenError::NotPrepared(place));
        }
        if store.is_open(row.number) {
            if !has_own_place(alloc, journal, &prepared, &row.key)? {
                return Err(OpenError::NotPrepared(place));
            }
            prepared.push(*row)?;
        }
    }
    Ok(prepared)
}

/// Whether nobody of these is prepared under a key of the place of this one, and nothing is kept there.
///
/// # Errors
///
/// The file failed, or memory was refused for it.
fn has_own_place<S: Alter>(
    alloc: Global,
    journal: &mut Journal<S>,
    prepared: &[Prepared],
    key: &TransactionKey,
) -> Result<bool, OpenError>
    requires { IsJournal S.Store journal.old }
    ensures own { IfOk result (λ own. Clean S.Store journal.new → IsTrue own ↔ ((first_passing (has_place key.now) prepared.now ≡ None) × ((written S.Store journal.old).outcomes.at (key_place key.now) ≡ None))) }
    ensures strays { IfErr result (λ e. IsStrayError e → ⊥) }
    ensures kept { OnOk result (IsJournal S.Store journal.new) }
    ensures written { OnOk result (Clean S.Store journal.new → written S.Store journal.new ≡ written S.Store journal.old) }
    ensures durable { OnOk result (Clean S.Store journal.new → durable S.Store journal.new ≡ durable S.Store journal.old) }
    ensures header { journal.new.header ≡ journal.old.header }
    ensures clean { Clean S.Store journal.new → Clean S.Store journal.old }
    ensures crash { (db : Trees) → may_leave S.Store journal.new db → may_leave S.Store journal.old db }
{
    if at_place(prepared, key).is_some() {
        return Ok(false);
    }
    match journal.outcome(alloc, key) {
        Ok(kept) => Ok(kept.is_none()),
        Err(error) => Err(OpenError::Journal(error)),
    }
}

/// A store of the types of a file with its history, with the limits of a file's store.
///
/// # Errors
///
/// `Text`, `Untyped`, `NoStore`, `NotMade` or `NoMemory`.
pub(crate) fn store_of(alloc: Global, said: &FileContents) -> Result<Store<Object>, OpenError>
    ensures store { IfOk result (λ s. IsStoreOf (contents said.now) s) }
    ensures followed { IfErr result (λ e. IsStrayError e → IsNotMade (contents said.now)) }
    ensures own { IfOk result (λ s. IsTracedHistory s) }
{
    let objects = objects_of(alloc, said)?;
    let mut store = match Store::with_limits(alloc, objects, file_limits()) {
        Ok(store) => store,
        Err((_, refusal)) => return Err(OpenError::NoStore(refusal)),
    };
    match follow_all(&mut store, &said.events) {
        Ok(()) => Ok(store),
        Err(error) => {
            let _ = store.close();
            Err(error)
        }
    }
}

/// The store makes these events again, one after another.
///
/// # Errors
///
/// `NotMade` or `NoMemory`.
fn follow_all(store: &mut Store<Object>, happened: &[EventKind]) -> Result<(), OpenError>
    ensures types { OnOk result (store.new.types ≡ store.old.types) }
    ensures history { OnOk result (store.new.history ≡ store.old.history ++ events_of_kinds happened.now) }
    ensures limit { OnOk result (store.new.limits ≡ store.old.limits) }
    ensures made { OnOk result (AreRetraced store.old (events_of_kinds happened.now)) }
    ensures strays { IfErr result (λ e. IsStrayError e → AreRetraced store.old (events_of_kinds happened.now) → ⊥) }
{
    for (place, kind) in happened.iter().enumerate() {
        follow_one(store, place, *kind)?;
    }
    Ok(())
}

/// The store makes the event at this place of the file again.
///
/// # Errors
///
/// `NotMade` or `NoMemory`.
fn follow_one(store: &mut Store<Object>, place: usize, kind: EventKind) -> Result<(), OpenError>
    ensures types { OnOk result (store.new.types ≡ store.old.types) }
    ensures history { OnOk result (store.new.history ≡ store.old.history ++ events_of_kinds (kind ∷ [])) }
    ensures limit { OnOk result (store.new.limits ≡ store.old.limits) }
    ensures made { OnOk result (IsRetraced store.old (event_of_kind kind)) }
    ensures strays { IfErr result (λ e. IsStrayError e → IsRetraced store.old (event_of_kind kind) → ⊥) }
{
    match retrace(store, &Event { worker: 0, kind }) {
        Ok(()) => {}
        Err(Stray::NotMade) => return Err(OpenError::NotMade(place)),
        Err(Stray::NoMemory) => return Err(OpenError::NoMemory),
    }
    let remembered = store.history().len();
    if remembered >= MOST_REMEMBERED {
        store.forget(remembered);
    }
    Ok(())
}
