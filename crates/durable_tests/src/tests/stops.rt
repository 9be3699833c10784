//! Files in memory that stop, and the trees in them.

ghost use Rattle.std.specs.Prelude.{◌≡◌, IfSome, IsTrue};
ghost use Rattle.sqlite_pager.specs.Pager as below;
ghost use Rattle.sqlite_store.specs.FileStore.{view};
ghost use Rattle.sqlite_store.specs.Unopened.{AreUsable};

use sqlite_disk::{Crash, Disk, Files};
use sqlite_pager::{Options, PageSize, Pager};
use sqlite_store::{FileStore, Unopened};
use sqlite_trees::store::{Alter, Shape};
use sqlite_value::row::Row;
use std::process::Abort;

/// Which file stops. What asks a file that stops asks nothing of the other after that, so the two together are each
/// moment at which the machine may stop.
#[derive(Clone, Copy)]
pub enum Stops {
    Log,
    Database,
}

/// How many calls each file passes on.
#[derive(Clone, Copy)]
pub struct Calls {
    pub log: u64,
    pub db: u64,
}

impl Stops {
    /// This many of the file that stops, and all of the other.
    pub fn behind(self, calls: u64) -> Calls {
        match self {
            Stops::Log => Calls {
                log: calls,
                db: u64::MAX,
            },
            Stops::Database => Calls {
                log: u64::MAX,
                db: calls,
            },
        }
    }
}

/// Trees that are found again in their files after the machine stopped and came back.
pub trait FoundAgain: Alter {
    /// The trees that are listed there.
    fn found_again<R: Abort + AllocGlobal>(self, rt: &R) -> Self
        ensures { IsTrue (Self.Store.view result).is_numbered };
}

impl<D: Crash + Drop> FoundAgain for FileStore<D> {
    fn found_again<R: Abort + AllocGlobal>(self, rt: &R) -> FileStore<D> {
        trees_in(rt, unopened(rt, came_back(self.close())))
    }
}

/// A pager of few pages, whose log is moved into the file of the database before each commit.
fn few_pages() -> Options {
    Options {
        cache_pages: 20,
        checkpoint_frames: 1,
        ..Options::new(7)
    }
}

/// These files after the machine stopped and came back.
fn came_back<D: Crash>(files: Files<D>) -> Files<D>
    ensures log { IsTrue (D.Disk.is_usable result.log) }
    ensures db { IsTrue (D.Disk.is_usable result.db) }
{
    let Files { mut log, mut db } = files;
    log.crash();
    db.crash();
    Files { log, db }
}

/// A pager over these files.
fn pager_over<D: Disk + Drop>(rt: &(impl Abort + AllocGlobal), files: Files<D>) -> Pager<D>
    ensures { below.files result ≡ (files.log, files.db) }
{
    let size = PageSize::new(512).expect(rt, "no page size");
    let pager = Pager::new(rt.alloc(), files, size, few_pages()).ok();
    pager.expect(rt, "no pager")
}

/// Files of which nothing is read yet.
fn unopened<D: Disk + Drop>(rt: &(impl Abort + AllocGlobal), files: Files<D>) -> Unopened<D>
    requires log { IsTrue (D.Disk.is_usable files.log) }
    requires db { IsTrue (D.Disk.is_usable files.db) }
    ensures { AreUsable result }
{
    let files = Unopened::new(rt.alloc(), pager_over(rt, files), &[]).ok();
    files.expect(rt, "no files")
}

/// The trees of new files, or none where the disk stops before.
pub fn new_trees<D: Disk + Drop>(
    rt: &(impl Abort + AllocGlobal),
    files: Files<D>,
) -> Option<FileStore<D>>
    requires log { IsTrue (D.Disk.is_usable files.log) }
    requires db { IsTrue (D.Disk.is_usable files.db) }
    ensures { IfSome result (λ it. IsTrue (view it).is_numbered) }
{
    unopened(rt, files).create().ok()
}

/// The trees that these files list.
fn trees_in<D: Disk + Drop>(rt: &(impl Abort + AllocGlobal), files: Unopened<D>) -> FileStore<D>
    requires { AreUsable files }
    ensures { IsTrue (view result).is_numbered }
{
    let mut files = files;
    let listed = files.read_catalog().expect(rt, "no catalog");
    list_trees(rt, &mut files, &listed);
    files.open_numbered().ok().expect(rt, "no trees")
}

/// The files have the trees that these rows list.
fn list_trees<D: Disk + Drop>(
    rt: &(impl Abort + AllocGlobal),
    files: &mut Unopened<D>,
    listed: &[Row],
)
    requires { AreUsable files.old }
    ensures { AreUsable files.new }
{
    let rows = without_roots(rt, listed);
    let mut layouts = Vec::new(rt.alloc());
    layouts
        .resize(rows.len(), (Shape::Table, 0))
        .expect(rt, "no layouts");
    let is_same = files.list_schema(&rows, &layouts);
    assert!(rt; is_same.expect(rt, "no memory"));
}

/// What a file lists, without the pages where trees begin.
fn without_roots(rt: &(impl Abort + AllocGlobal), listed: &[Row]) -> Vec<Row> {
    let mut rows = Vec::new(rt.alloc());
    for entry in listed {
        let row = without_root(rt, entry);
        rows.push(row).ok().expect(rt, "no row");
    }
    rows
}

/// One entry of them.
fn without_root(rt: &(impl Abort + AllocGlobal), entry: &Row) -> Row {
    let mut row = Row::new(rt.alloc());
    for column in [0, 1, 2, 3, 5] {
        row.push(entry.get(column)).expect(rt, "no column");
    }
    row
}
