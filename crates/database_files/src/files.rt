//! The trees of a database in files.

ghost use Rattle.std.specs.Prelude.{◌≡◌, true, false, IfOk, IsTrue};
ghost use Rattle.sqlite_trees.specs.Tree.{Trees};
ghost use Rattle.sqlite_trees.specs.View.{IsClean};
ghost use Rattle.sqlite_std_file.specs.File.{file_is_usable, IsFresh};
ghost use Rattle.sqlite_wal.specs.Files.{image_at};
ghost use Rattle.sqlite_store.specs.FileStore.{files};
ghost use Rattle.sqlite.specs.State.{HasCleanDisk};
ghost use Rattle.sqlite.specs.Held.{state};
ghost use Rattle.sqlite.specs.Files.{HoldsDatabase, image_of, over_files};
ghost use Rattle.database_files.specs.ChosenDisk.{disk_of};

use crate::chosen_disk::ChosenDisk;
use crate::faults::{fault_of_database, fault_of_files, fault_of_system, fault_of_trees};
use crate::heads::may_be_database;
use crate::new_files::{drop_new_name, new_path, refuse_taken, remove_new};
use crate::open_fault::OpenFault;
use crate::torn_writes::TornWrites;
use command_files::DatabaseFault;
use sqlite::{Alter, Connection, FileFrom, FileStore, Files, Options, Start};
use sqlite_disk::Disk;
use sqlite_trees::store::Store;
use std::fs;
use std::hash::{BuildHasher, RandomState};

/// A file that held what `S` says, of which it is chosen how its torn writes are judged.
pub type ChosenFile<S> = ChosenDisk<FileFrom<S>>;

/// The trees of the database in the file at a path, as its last commit left them. What the log of a process that
/// stopped has committed is taken over. The file is held until the trees are let go. That a torn write leaves each
/// byte old or new is supposed where `S` says so and it is chosen.
///
/// # Errors
///
/// `NoDatabase` where the file is none of a database, which stays as it is; `Missing` where there is nothing at the
/// path, `Busy` where another process holds it, `CannotOpen`, or `NoMemory`.
pub fn open_files<S: Start>(
    rt: &HostRuntime,
    path: &str,
    start: S,
    torn: TornWrites,
) -> Result<FileStore<ChosenFile<S>>, OpenFault>
    ensures numbered { IfOk result (λ trees. IsClean (over_files.view trees) → IsTrue (over_files.view trees).is_numbered) }
    ensures found { IfOk result (λ trees. IsClean (over_files.view trees) → IsTrue (over_files.view trees).is_open → (db : Trees) → HoldsDatabase (image_at S.Start) db → (over_files.view trees).committed ≡ db) }
{
    refuse_name(path)?;
    let real = fs::canonicalize(rt, path)?;
    if !may_be_database(rt, real.as_str())? {
        return Err(OpenFault::NoDatabase);
    }
    drop_new_name(rt, real.as_str())?;
    let trees = trees_at(rt, real.as_str(), start, torn)?;
    Ok(trees)
}

/// The trees of a new database for a path, of which there are none yet. Its file is beside the path until it is
/// published. It ends each page in a sum, by which a wrong read of the disk is found, and of its torn writes nothing
/// is supposed.
///
/// # Errors
///
/// `Present` where there is something at the path or the log or the journal of a file there, `Busy` where another
/// process makes a database for it, `Missing` where there is no folder, `CannotOpen`, or `NoMemory`.
pub fn create_files<S: Start>(
    rt: &HostRuntime,
    path: &str,
    start: S,
) -> Result<FileStore<ChosenFile<S>>, DatabaseFault>
    ensures numbered { IfOk result (λ trees. IsClean (over_files.view trees) → IsTrue (over_files.view trees).is_numbered) }
{
    refuse_name(path)?;
    refuse_taken(rt, path)?;
    match new_trees(rt, path, start) {
        Ok(trees) => Ok(trees),
        // Then the file beside the path is that of the other process.
        Err(DatabaseFault::Busy) => Err(DatabaseFault::Busy),
        Err(fault) => {
            remove_new(rt, path);
            Err(fault)
        }
    }
}

/// The trees of a new file beside a path. What an earlier process left there is emptied first.
fn new_trees<S: Start>(
    rt: &HostRuntime,
    path: &str,
    start: S,
) -> Result<FileStore<ChosenFile<S>>, DatabaseFault>
    ensures numbered { IfOk result (λ trees. IsClean (over_files.view trees) → IsTrue (over_files.view trees).is_numbered) }
{
    let new = new_path(rt, path)?;
    let files = files_at(rt, new.as_str(), start, TornWrites::AnyBytes)?;
    emptied_trees(rt, path, files)
}

/// The trees of these files, which are emptied first, where a path is still free. They are over any disk: with a disk
/// that is named, what is said of their trees costs several times as much to prove.
fn emptied_trees<D: Disk + Drop>(
    rt: &HostRuntime,
    path: &str,
    files: Files<D>,
) -> Result<FileStore<D>, DatabaseFault>
    requires log { IsTrue (D.Disk.is_usable files.log) }
    requires db { IsTrue (D.Disk.is_usable files.db) }
    ensures numbered { IfOk result (λ trees. IsClean (over_files.view trees) → IsTrue (over_files.view trees).is_numbered) }
{
    // Once more, since who held the file until now may have published it.
    refuse_taken(rt, path)?;
    let files = emptied(files)?;
    trees_over(rt, files)
}

/// The files, with nothing in them.
fn emptied<D: Disk + Drop>(files: Files<D>) -> Result<Files<D>, DatabaseFault>
    requires log { IsTrue (D.Disk.is_usable files.log) }
    requires db { IsTrue (D.Disk.is_usable files.db) }
    ensures usable { IfOk result (λ files. IsTrue (D.Disk.is_usable files.log) × IsTrue (D.Disk.is_usable files.db)) }
{
    let Files { mut log, mut db } = files;
    match log.set_len(0) {
        Ok(()) => {}
        Err(error) => return Err(fault_of_system(error)),
    }
    match db.set_len(0) {
        Ok(()) => Ok(Files { log, db }),
        Err(error) => Err(fault_of_system(error)),
    }
}

/// What was committed in trees is moved from their log into their file, where that succeeds; and the files, which are
/// held until they are let go of.
pub(crate) fn moved_files<D: Disk>(trees: FileStore<D>) -> (Result<(), DatabaseFault>, Files<D>) {
    let mut trees = trees;
    trees.rollback();
    let moved = match trees.checkpoint() {
        Ok(()) => Ok(()),
        Err(error) => Err(fault_of_trees(error)),
    };
    (moved, trees.close())
}

/// The files of trees that are let go of as they are: no call of them is made.
pub fn files_left<D: Disk>(trees: FileStore<D>) -> Files<D>
    ensures { (result.log, result.db) ≡ files trees }
{
    trees.close()
}

/// SQLite's name for a database that is in memory, and its URIs, are no paths.
fn refuse_name(path: &str) -> Result<(), DatabaseFault> {
    if path == ":memory:" || path.starts_with("file:") {
        return Err(DatabaseFault::CannotOpen);
    }
    Ok(())
}

/// The trees of the file at a path.
fn trees_at<S: Start>(
    rt: &HostRuntime,
    path: &str,
    start: S,
    torn: TornWrites,
) -> Result<FileStore<ChosenFile<S>>, DatabaseFault>
    ensures numbered { IfOk result (λ trees. IsClean (over_files.view trees) → IsTrue (over_files.view trees).is_numbered) }
    ensures found { IfOk result (λ trees. IsClean (over_files.view trees) → IsTrue (over_files.view trees).is_open → (db : Trees) → HoldsDatabase (image_at S.Start) db → (over_files.view trees).committed ≡ db) }
{
    let files = files_at(rt, path, start, torn)?;
    trees_over(rt, files)
}

/// The file at a path and its log, which are made where they are missing. They are held from then on.
fn files_at<S: Start>(
    rt: &HostRuntime,
    path: &str,
    start: S,
    torn: TornWrites,
) -> Result<Files<ChosenFile<S>>, DatabaseFault>
    ensures usable { IfOk result (λ files. IsTrue (file_is_usable S.Start (disk_of files.log)) × IsTrue (file_is_usable S.Start (disk_of files.db))) }
    ensures fresh { IfOk result (λ files. IsFresh true (disk_of files.log) × IsFresh false (disk_of files.db)) }
{
    match sqlite_std_file::open(rt, path, start) {
        Ok(Files { log, db }) => Ok(Files {
            log: ChosenDisk::new(log, torn),
            db: ChosenDisk::new(db, torn),
        }),
        Err(error) => Err(fault_of_files(error)),
    }
}

/// The trees of these files.
fn trees_over<D: Disk + Drop>(
    rt: &HostRuntime,
    files: Files<D>,
) -> Result<FileStore<D>, DatabaseFault>
    requires log { IsTrue (D.Disk.is_usable files.log) }
    requires db { IsTrue (D.Disk.is_usable files.db) }
    ensures numbered { IfOk result (λ trees. IsClean (over_files.view trees) → IsTrue (over_files.view trees).is_numbered) }
    ensures found { IfOk result (λ trees. IsClean (over_files.view trees) → IsTrue (over_files.view trees).is_open → (db : Trees) → HoldsDatabase (image_of D.Disk files) db → (over_files.view trees).committed ≡ db) }
{
    let options = options(rt)?;
    match Connection::open_files_with(rt.alloc(), files, options, true) {
        Ok(conn) => Ok(trees_of(conn)),
        Err((error, _)) => Err(fault_of_database(error)),
    }
}

/// Those of SQLite's pages, by a seed that is drawn.
fn options(rt: &HostRuntime) -> Result<Options, DatabaseFault> {
    match RandomState::new(rt) {
        Ok(state) => Ok(Options::new(state.hash_one(&0u8))),
        Err(_) => Err(DatabaseFault::CannotOpen),
    }
}

/// The trees of a connection.
fn trees_of<S: Alter + Drop>(conn: Connection<S>) -> S
    ensures numbered { IsClean (S.Store.view result) → IsTrue (S.Store.view result).is_numbered }
    ensures clean { IsClean (S.Store.view result) → HasCleanDisk (state S.Store conn) }
    ensures same { IsClean (S.Store.view result) → IsTrue (S.Store.view result).is_open → (S.Store.view result).committed ≡ (state S.Store conn).committed.trees }
{
    conn.into_store()
}
