//! Where the databases of the commands come from.

ghost use Rattle.std.specs.Prelude.{◌≡◌, ℕ, List, Option, IfOk, IfSome, IsTrue, OnOk, OnErr};
ghost use Rattle.sqlite_trees.specs.Tree.{Trees};
ghost use Rattle.sqlite_trees.specs.View.{IsClean};

use crate::open_fault::OpenFault;
use crate::torn_writes::TornWrites;
use command_files::DatabaseFault;
use sqlite::Alter;

/// What gives the trees of a database by its path.
pub trait Databases {
    /// The trees of one database.
    type Opened: Alter;

    /// The last commit of the database at a path, where this says it; over the system's files nothing does.
    ghost holds: { Self → List ℕ → Option Trees };

    /// No wrong answer of a disk was taken as true; over the system's files nothing says so.
    ghost is_clean: { Self → Type 0 };

    /// The trees of the database at a path, as its last commit left them. Of their commits it is supposed that the
    /// machine's torn writes leave no more than `torn` says. A machine that stops now leaves what the path has, and so does
    /// an open that fails.
    fn open(&mut self, path: &str, torn: TornWrites) -> Result<Self::Opened, OpenFault>
        ensures numbered { IfOk result (λ trees. IsClean (Self.Opened.Store.view trees) → IsTrue (Self.Opened.Store.view trees).is_numbered) }
        ensures held { IfOk result (λ trees. IsClean (Self.Opened.Store.view trees) → IsTrue (Self.Opened.Store.view trees).is_open
            → IfSome (holds self.old path.now) (λ db. (Self.Opened.Store.view trees).committed ≡ db)) }
        ensures clean { IfOk result (λ trees. is_clean self.new → IsClean (Self.Opened.Store.view trees)) }
        ensures left { IfOk result (λ trees. IsClean (Self.Opened.Store.view trees)
            → IfSome (holds self.old path.now) (λ was. (db : Trees) → Self.Opened.Store.recovers trees db → db ≡ was)) }
        ensures kept { OnErr result ((other : List ℕ) → holds self.new other ≡ holds self.old other) };

    /// The trees of a new database for a path, of which there are none yet. The path has nothing before they are
    /// published.
    fn create(&mut self, path: &str) -> Result<Self::Opened, DatabaseFault>
        ensures numbered { IfOk result (λ trees. IsClean (Self.Opened.Store.view trees) → IsTrue (Self.Opened.Store.view trees).is_numbered) }
        ensures kept { (other : List ℕ) → holds self.new other ≡ holds self.old other };

    /// Bytes that no other database has.
    fn id(&mut self) -> Result<[u8; 16], DatabaseFault>
        ensures kept { (other : List ℕ) → holds self.new other ≡ holds self.old other };

    /// Puts what is committed in the trees of a new database at its path in one step, and lets go of them.
    ///
    /// # Errors
    ///
    /// `Present` where something has come to the path since, `Failed` or `NoMemory`. The path has what it had.
    fn publish(&mut self, path: &str, trees: Self::Opened) -> Result<(), DatabaseFault>
        ensures clean { OnOk result (is_clean self.new → IsClean (Self.Opened.Store.view trees)) }
        ensures held { OnOk result (IsClean (Self.Opened.Store.view trees) → IfSome (holds self.new path.now) (λ db. (Self.Opened.Store.view trees).committed ≡ db)) }
        ensures kept { OnErr result ((other : List ℕ) → holds self.new other ≡ holds self.old other) };

    /// Lets go of the trees of a new database, which isn't published.
    fn discard(&mut self, path: &str, trees: Self::Opened)
        ensures kept { (other : List ℕ) → holds self.new other ≡ holds self.old other };

    /// Moves what is committed in the trees of the database at a path into its file, and lets go of them.
    fn close(&mut self, path: &str, trees: Self::Opened)
        ensures clean { is_clean self.new → IsClean (Self.Opened.Store.view trees) }
        ensures held { IsClean (Self.Opened.Store.view trees) → IfSome (holds self.new path.now) (λ db. (Self.Opened.Store.view trees).committed ≡ db) };

    /// Lets go of the trees of the database at a path as they are, with no further call of its file: an open finds
    /// what a machine that stops now may have left.
    fn leave(&mut self, path: &str, trees: Self::Opened)
        ensures before { is_clean self.new → is_clean self.old }
        ensures clean { is_clean self.new → IsClean (Self.Opened.Store.view trees) }
        ensures left { IsClean (Self.Opened.Store.view trees) → IfSome (holds self.new path.now) (Self.Opened.Store.recovers trees) };
}
