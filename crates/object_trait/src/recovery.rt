//! What an object owes, whatever its kind of recovery and whatever it keeps.

ghost use Rattle.std.specs.Prelude.{◌≡◌, ◌↔◌, ◌<◌, ◌≤◌, ◌%◌, true, Some, length, slice_get, OnOk, OnErr};
ghost use Rattle.table_checker.specs.Checked.{IsChecked};
ghost use Rattle.declared_types.specs.Declarations.{file_of, IsDeclaredFor};
ghost use Rattle.object_trait.specs.Meaning.{Meaning, state_of, view_of, open_of};
ghost use Rattle.object_trait.specs.Committed.{committed_of};
ghost use Rattle.object_trait.specs.Admissions.{admission_of};
ghost use Rattle.object_trait.specs.Steps.{IsLegalFor, TellsKept, open_transactions, IsFresh, stopper, MayApply, applied, IsCommit, IsStrike, IsAbort};

use crate::admission::{Admission, admitted_by};
use crate::log_entry::LogEntry;
use declared_types::DeclaredType;
use std::alloc::AllocError;
use type_table::Operation;

/// An object that many transactions share, with its way of recovering from aborts.
///
/// Its meaning is a checked type, which no call changes, a state `base`, and a log of what was done
/// since, oldest first. A transaction is open at the object where it has an entry that isn't done.
pub trait Recovery: Send + Drop {
    /// What the object means now.
    ghost meaning: { Self → Meaning };

    /// What declares its type, which was checked for its kind of recovery.
    fn declared(&self) -> &DeclaredType
        ensures exact { file_of result.now ≡ (meaning self.now).checked.file }
        ensures kind { IsDeclaredFor (meaning self.now).checked.kind result.now }
        ensures checked { IsChecked (meaning self.now).checked };

    /// The object's state: with update in place that after the whole log, with deferred update and in
    /// escrow that of the committed transactions alone. In escrow the latter is the state after their
    /// operations in commit order. With deferred update it is one that is equieffective to that, and
    /// needn't be the same: of a type whose states 3 and 4 no operation distinguishes, it may be 4 where that
    /// is 3.
    fn state(&self) -> u32
        ensures exact { state_of (meaning self.now) ≡ Some result };

    /// The state of the committed transactions alone: with update in place that after the done entries of the log, in their
    /// order, with deferred update and in escrow the object's state.
    fn committed(&self) -> u32
        ensures exact { committed_of (meaning self.now) ≡ Some result };

    /// The state that transaction t sees: with update in place that after the whole log, with deferred
    /// update and in escrow that after its own open operations, on the state of the committed ones.
    fn view(&self, t: u32) -> u32
        ensures exact { view_of (meaning self.now) t ≡ Some result }
        ensures inside { result < (meaning self.now).checked.file.table.states };

    /// Whether operation k of the object's table is legal in the state that transaction t sees.
    fn legal(&self, t: u32, k: Operation) -> bool
        requires { k < length (meaning self.now).checked.file.table.ops }
        ensures { (result ≡ true) ↔ IsLegalFor (meaning self.now) t k };

    /// Who keeps transaction t from operation k, which is legal for it: the transaction of the earliest
    /// open entry that stops it, but in escrow first of the earliest whose transaction does so alone,
    /// whatever the others do.
    fn blocker(&self, t: u32, k: Operation) -> Option<u32>
        requires operation { k < length (meaning self.now).checked.file.table.ops }
        requires legal { IsLegalFor (meaning self.now) t k }
        ensures { result ≡ stopper (meaning self.now) t k };

    /// What transaction t meets that asks for operation k: what `legal` and `blocker` say, in one look.
    fn admission(&self, t: u32, k: Operation) -> Admission
        requires { k < length (meaning self.now).checked.file.table.ops }
        ensures { result ≡ admission_of (meaning self.now) t k }
    {
        if !self.legal(t, k) {
            return Admission::Illegal;
        }
        admitted_by(self.blocker(t, k))
    }

    /// Whether u keeps t from an operation of a number's line. This place is the first one of the line, the next
    /// one is that of the other reply. The answer is an amount: at one of the two places the operation with this
    /// amount is legal for t, and u keeps t from it. None says that there is no such amount.
    fn amount_kept(&self, t: u32, place: u8, u: u32) -> Option<u32>
        requires { place % 2 ≡ 0 }
        ensures { TellsKept (meaning self.now) t place u result };

    /// Executes operation k for transaction t: one more entry, which is open. The caller has seen
    /// that k is legal for t and that no other transaction keeps t from it.
    ///
    /// # Errors
    ///
    /// Memory was refused, and the meaning is as it was.
    fn apply(&mut self, t: u32, k: Operation) -> Result<(), AllocError>
        requires { MayApply (meaning self.old) t k }
        ensures applied { OnOk result (meaning self.new ≡ applied (meaning self.old) t k) }
        ensures unchanged { OnErr result (meaning self.new ≡ meaning self.old) };

    /// Commits transaction t. With update in place its entries become done; with deferred update
    /// and in escrow they leave the log, and the state becomes one that is equieffective to that after
    /// them, or stays where there are none; in escrow it becomes that state.
    fn commit(&mut self, t: u32)
        ensures { IsCommit (meaning self.old) t (meaning self.new) };

    /// Executes operation k for transaction t, and commits t: as `apply`, and then `commit`. An object where no
    /// transaction is open may do both at once.
    ///
    /// # Errors
    ///
    /// Memory was refused, and the meaning is as it was.
    fn apply_and_commit(&mut self, t: u32, k: Operation) -> Result<(), AllocError>
        requires { MayApply (meaning self.old) t k }
        ensures committed { OnOk result (IsCommit (applied (meaning self.old) t k) t (meaning self.new)) }
        ensures unchanged { OnErr result (meaning self.new ≡ meaning self.old) }
    {
        self.apply(t, k)?;
        self.commit(t);
        Ok(())
    }

    /// Aborts transaction t: its open entries leave the log. With deferred update and in escrow the state
    /// stays, as the same number.
    fn abort(&mut self, t: u32)
        ensures { IsAbort (meaning self.old) t (meaning self.new) };

    /// Strikes the last m open entries of transaction t, which has at least m.
    fn strike(&mut self, t: u32, m: u32)
        requires { m ≤ length (open_of t (meaning self.old).log) }
        ensures { IsStrike (meaning self.old) t m (meaning self.new) };

    /// The number of transactions that are open at the object.
    fn open_count(&self) -> u32
        ensures { result ≡ length (open_transactions (meaning self.now).log) };

    /// The entry at place i of the log, oldest first; None where it has no more.
    fn entry(&self, i: usize) -> Option<LogEntry>
        ensures { result ≡ slice_get (meaning self.now).log i };

    /// Whether the state is the type's initial one and the log is empty.
    fn is_fresh(&self) -> bool
        ensures { (result ≡ true) ↔ IsFresh (meaning self.now) };
}
