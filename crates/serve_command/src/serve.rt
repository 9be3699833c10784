//! A store in a file is served to one client.

ghost use Rattle.std.specs.Prelude.{◌≡◌, ◌⊎◌, false, Option, None, Some, IfErr, IfOk, IfSome, OnErr, OnOk, IsTrue};
ghost use Rattle.sqlite_trees.specs.Tree.{Trees};
ghost use Rattle.sqlite_trees.specs.View.{IsClean};
ghost use Rattle.outputs.specs.Gathered.{taken_by, under};
ghost use Rattle.journal.specs.Contents.{contents_of, with_least};
ghost use Rattle.journal.specs.Journal.{Clean, ShowsCommit, written};
ghost use Rattle.durable_store.specs.Durable.{IsDurable};
ghost use Rattle.serve_command.specs.Archived.{ArchivesEpochs, KeepsBetween};
ghost use Rattle.serve_command.specs.Found.{SaysFound};
ghost use Rattle.serve_command.specs.Served.{BeginsBefore, BeginsServing, ComesOfServing, FailsBefore, FailsServing, IsHeld, LeavesHeld, LeavesStaying, ServesDatabase, ServesIn, StopsIn};
ghost use Rattle.command_files.specs.Answers.{IsEarlyFault};
ghost use Rattle.command_files.specs.Status.{is_input};

use crate::found::{Found, milliseconds_since, say_found};
use command_files::{DatabaseFault, Fault, Verdict};
use database_commands::{fault_of_file, fault_of_making, fault_of_open, fault_of_unopened};
use database_files::{Databases, TornWrites};
use durable_store::{Durable, open_counted};
use journal::JournalError;
use outputs::{Gathered, Out};
use serving::{
    Additions, Archive, ArchiveFault, Client, EpochLimits, ServeFault, serve,
    told_commits_are_found,
};
use sqlite_trees::store::Alter;
use std::alloc::Global;
use std::io::Read;
use std::rt::Clock;
use std::time::{Duration, Instant};

/// With how many events more than it began with an epoch is full: its end takes a few milliseconds.
const EPOCH_EVENTS: u32 = 32_768;

/// The most bytes that are read at once.
const MOST_READ: usize = 65_536;

/// How a store is to be served: the path of its database, what is supposed of torn writes, the folder of its archive, if
/// any, how long what is open may go on in an epoch that is full where it can't go over, and how many of the last outcomes
/// stay at least.
#[derive(Clone, Copy)]
pub struct Serving<'a> {
    pub path: &'a str,
    pub torn: TornWrites,
    pub archive: Option<&'a str>,
    pub drain: Duration,
    pub outcomes: u32,
}

/// `serve DATABASE`: the store is opened, what was open in it is aborted, and what was found is said in a line. From then on
/// at least as many of the last outcomes stay in its file as is asked. Then the
/// lines of the input are done one after another, and the output takes their answers, until the end is asked for
/// or the input has ended. What is open then is aborted; and where the end was asked for, or more objects are to be added, the
/// file begins a new epoch. After 32,768 events another epoch begins too, and where more objects are to be added, with these.
/// Where each yes is strong, all that is open goes over; else no further transaction begins before, and what is open is
/// aborted where it goes on as long as it may. Before an epoch begins, the archive keeps the history of the one before; where
/// the answer is yes, it has kept that of each epoch that ended, and nothing else.
///
/// # Errors
///
/// The database isn't opened or isn't one of a store, it failed, the archive, the input or the output failed, or memory was
/// refused. Then no further call of the file is made, and what is at the path is the file after some of the lines that were
/// read, among them each commit that was answered; or, before serving begins, what was there, or that as an opening leaves it.
pub fn serve_database<
    'a,
    C: Clock,
    D: Databases,
    N: Additions,
    A: Archive,
    I: Read,
    W: Out,
    E: Out,
>(
    clock: &C,
    alloc: Global,
    asked: Serving<'a>,
    databases: &mut D,
    additions: &mut N,
    archive: &mut A,
    input: &mut I,
    out: Gathered<W>,
    err: &mut E,
) -> (Result<Verdict, Fault<'a>>, Gathered<W>)
    requires out_takes { W.fault (under out) ≡ None }
    requires err_takes { E.fault err.old ≡ None }
    ensures comes { let path = asked.entry.path in ComesOfServing (BeginsServing asked.entry.outcomes (D.is_clean databases.new) (D.holds databases.old path.now) (D.holds databases.new path.now) (I.remaining input.old) (I.remaining input.new))
        (ServesDatabase asked.entry.outcomes (D.is_clean databases.new) (D.holds databases.old path.now) (D.holds databases.new path.now) (I.remaining input.old) (I.remaining input.new))
        result.0 (taken_by W.taken out) (taken_by W.taken result.1) }
    ensures left { OnErr result.0 (FailsServing asked.entry.outcomes (D.is_clean databases.new) (D.holds databases.old asked.entry.path.now) (D.holds databases.new asked.entry.path.now) (I.remaining input.old) (I.remaining input.new)) }
    ensures says { OnOk result.0 (SaysFound (D.is_clean databases.new) (D.holds databases.old asked.entry.path.now) asked.entry.path.now (E.taken err.old) (E.taken err.new)) }
    ensures archives { OnOk result.0 (ArchivesEpochs asked.entry.outcomes (D.is_clean databases.new) (D.holds databases.old asked.entry.path.now) (D.holds databases.new asked.entry.path.now) (A.kept archive.old) (A.kept archive.new)) }
{
    match databases.open(asked.path, asked.torn) {
        Ok(trees) => {
            let mut client = Client::new(out);
            let (served, trees) = serve_in(
                clock,
                alloc,
                asked,
                trees,
                additions,
                archive,
                input,
                &mut client,
                err,
            );
            let_go(asked.path, trees, &served, databases);
            (served, client.into_out())
        }
        Err(fault) => (Err(fault_of_unopened(asked.path, fault)), out),
    }
}

/// Lets go of the trees of a database: where the store in them was served to the end what is committed is moved into its
/// file, and where serving stopped no further call of the file is made, since nothing is known of one that failed.
fn let_go<'a, D: Databases>(
    path: &str,
    trees: D::Opened,
    served: &Result<Verdict, Fault<'a>>,
    databases: &mut D,
)
    ensures before { OnErr served.now (D.is_clean databases.new → D.is_clean databases.old) }
    ensures clean { D.is_clean databases.new → IsClean (D.Opened.Store.view trees) }
    ensures held { OnOk served.now (D.is_clean databases.new → IfSome (D.holds databases.new path.now) (λ db. (D.Opened.Store.view trees).committed ≡ db)) }
    ensures left { OnErr served.now (D.is_clean databases.new → IfSome (D.holds databases.new path.now) (D.Opened.Store.recovers trees)) }
{
    match served {
        Ok(_) => databases.close(path, trees),
        Err(_) => databases.leave(path, trees),
    }
}

/// Serves the store in these trees, which come back.
fn serve_in<'a, C: Clock, S: Alter, N: Additions, A: Archive, I: Read, W: Out, E: Out>(
    clock: &C,
    alloc: Global,
    asked: Serving<'a>,
    trees: S,
    additions: &mut N,
    archive: &mut A,
    input: &mut I,
    client: &mut Client<W>,
    err: &mut E,
) -> (Result<Verdict, Fault<'a>>, S)
    requires numbered { IsClean (S.Store.view trees) → IsTrue (S.Store.view trees).is_numbered }
    requires out_takes { W.fault (under client.old.out) ≡ None }
    requires err_takes { E.fault err.old ≡ None }
    ensures comes { (held : Option Trees) → IsHeld (S.Store.view trees) held
        → ComesOfServing (BeginsBefore asked.entry.outcomes (IsClean (S.Store.view result.1)) held (S.Store.recovers result.1) (I.remaining input.old) (I.remaining input.new))
        (ServesDatabase asked.entry.outcomes (IsClean (S.Store.view result.1)) held (Some (S.Store.view result.1).committed) (I.remaining input.old) (I.remaining input.new))
        result.0 (taken_by W.taken client.old.out) (taken_by W.taken client.new.out) }
    ensures left { (held : Option Trees) → IsHeld (S.Store.view trees) held → LeavesHeld S.Store trees held
        → OnErr result.0 (FailsBefore asked.entry.outcomes (IsClean (S.Store.view trees) × IsClean (S.Store.view result.1)) held (S.Store.recovers result.1) (I.remaining input.old) (I.remaining input.new)) }
    ensures says { (held : Option Trees) → IsHeld (S.Store.view trees) held
        → OnOk result.0 (SaysFound (IsClean (S.Store.view result.1)) held asked.entry.path.now (E.taken err.old) (E.taken err.new)) }
    ensures archives { (held : Option Trees) → IsHeld (S.Store.view trees) held
        → OnOk result.0 (ArchivesEpochs asked.entry.outcomes (IsClean (S.Store.view result.1)) held (Some (S.Store.view result.1).committed) (A.kept archive.old) (A.kept archive.new)) }
{
    let began = Instant::now(clock).ok();
    match open_counted(alloc, trees) {
        Ok((store, events)) => {
            let found = Found {
                events,
                aborted: (store.store().event_count() as usize).saturating_sub(events),
                time: milliseconds_since(clock, began),
            };
            say_found(asked.path, found, err);
            let mut store = store;
            match stay_at_least(&mut store, asked.outcomes) {
                Ok(()) => serve_store(
                    clock, alloc, asked, store, additions, archive, input, client,
                ),
                Err(error) => (Err(fault_of_file(asked.path, error)), store.into_trees()),
            }
        }
        Err((error, trees)) => (Err(fault_of_open(asked.path, error)), trees),
    }
}

/// Lets at least this many of the last outcomes stay from now on, where the file says another number: after `Ok` no crash
/// takes that away.
///
/// # Errors
///
/// The file failed, or memory was refused for it.
fn stay_at_least<S: Alter>(store: &mut Durable<S>, least: u32) -> Result<(), JournalError>
    requires sound { IsDurable S.Store store.old }
    requires shows { ShowsCommit S.Store store.old.journal }
    ensures sound { OnOk result (IsDurable S.Store store.new) }
    ensures shows { OnOk result (ShowsCommit S.Store store.new.journal) }
    ensures types { OnOk result (store.new.store.types ≡ store.old.store.types) }
    ensures history { OnOk result (store.new.store.history ≡ store.old.store.history) }
    ensures written { OnOk result (Clean S.Store store.new.journal → written S.Store store.new.journal ≡ with_least (written S.Store store.old.journal) least) }
    ensures clean { Clean S.Store store.new.journal → Clean S.Store store.old.journal }
    ensures crash { LeavesStaying S.Store least store.old store.new }
{
    if store.least_outcomes() == u64::from(least) {
        return Ok(());
    }
    store.keep_at_least(least)?;
    store.settle()
}

/// Serves a store that was opened. Its trees come back.
fn serve_store<'a, C: Clock, S: Alter, N: Additions, A: Archive, I: Read, W: Out>(
    clock: &C,
    alloc: Global,
    asked: Serving<'a>,
    store: Durable<S>,
    additions: &mut N,
    archive: &mut A,
    input: &mut I,
    client: &mut Client<W>,
) -> (Result<Verdict, Fault<'a>>, S)
    requires sound { IsDurable S.Store store }
    requires shows { ShowsCommit S.Store store.journal }
    requires out_takes { W.fault (under client.old.out) ≡ None }
    ensures yes { IfOk result.0 (λ verdict. verdict ≡ Verdict.Yes) }
    ensures told { OnOk result.0 (ServesIn S.Store store (I.remaining input.old) (taken_by W.taken client.old.out) result.1 (I.remaining input.new) (taken_by W.taken client.new.out)) }
    ensures cut { IfErr result.0 (λ fault. ((taken_by W.taken client.new.out ≡ taken_by W.taken client.old.out) × (result.1 ≡ store.journal.store))
        ⊎ ((is_input fault ≡ false) × StopsIn S.Store store (I.remaining input.old) (taken_by W.taken client.old.out) result.1 (I.remaining input.new) (taken_by W.taken client.new.out))) }
    ensures archives { OnOk result.0 (IsClean (S.Store.view result.1)
        → KeepsBetween (written S.Store store.journal) (contents_of (S.Store.view result.1).committed) (A.kept archive.old) (A.kept archive.new)) }
{
    told_commits_are_found::<S>();
    let Ok(mut buffer) = Vec::from_elem(alloc, 0u8, MOST_READ) else {
        return (Err(Fault::NoMemory), store.into_trees());
    };
    let limits = EpochLimits {
        most_events: EPOCH_EVENTS,
        drain: asked.drain,
    };
    let (store, served) = serve(
        clock,
        alloc,
        limits,
        store,
        additions,
        archive,
        input,
        &mut buffer,
        client,
    );
    let trees = store.into_trees();
    match served {
        Ok(()) => (Ok(Verdict::Yes), trees),
        Err(fault) => (Err(fault_of_serving(asked, fault)), trees),
    }
}

/// Why a store isn't served any more: nothing of what the user gave.
fn fault_of_serving<'a>(asked: Serving<'a>, fault: ServeFault) -> Fault<'a>
    ensures { is_input result ≡ false }
{
    match fault {
        ServeFault::Journal(error) => fault_of_file(asked.path, error),
        ServeFault::Archive(fault) => fault_of_archive(asked.archive.unwrap_or(asked.path), fault),
        ServeFault::Extension(error) => fault_of_making(asked.path, error),
        ServeFault::Input => Fault::CannotRead {
            path: "standard input",
        },
        ServeFault::Output(_) => Fault::Output,
        ServeFault::NoMemory => Fault::NoMemory,
    }
}

/// Why the archive in a folder can't be used, or doesn't keep a history.
pub fn fault_of_archive<'a>(folder: &'a str, fault: ArchiveFault) -> Fault<'a>
    ensures { IsEarlyFault ⊥ result }
{
    match fault {
        ArchiveFault::Taken => Fault::of_database(folder, DatabaseFault::Present),
        ArchiveFault::Device => Fault::of_database(folder, DatabaseFault::Failed),
        ArchiveFault::NoMemory => Fault::NoMemory,
    }
}
