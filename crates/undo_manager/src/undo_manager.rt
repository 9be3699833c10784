ghost use Rattle.std.specs.Prelude.{◌≡◌, ◌↔◌, length, IsOk, IfOk, IfErr};
ghost use Rattle.object_trait.specs.Steps.{IsFresh};
ghost use Rattle.undo_manager.specs.Log.{BeginsOpen};

use crate::opened::Opened;
use crate::undo_entry::UndoEntry;
use object_trait::{WrongKind, checked_is_covered, fresh_is_sound};
use op_locks::OpLocks;
use std::alloc::Global;
use std::marker::Model;
use std::sync::Arc;
use table_checker::CheckedType;
use type_table::Kind;

/// An object with update in place.
///
/// An operation works on the one state. A commit leaves it as it is; an abort takes the transaction's
/// operations out of the log, and runs what others did since the first of them again.
#[derive(Drop)]
pub struct UndoManager {
    /// Its type, for which the checker said yes.
    pub(crate) checked: Arc<CheckedType>,
    /// The state before the log.
    pub(crate) base: u16,
    /// The state after it.
    pub(crate) state: u16,
    /// What was done since the base, oldest first.
    pub(crate) log: Vec<UndoEntry>,
    /// What open transactions hold: the operation of each open entry.
    pub(crate) held: OpLocks,
    /// The transactions with open entries.
    pub(crate) opened: Vec<Opened>,
}

impl Model for UndoManager {
    ghost use Rattle.object_trait.specs.Meaning.{Meaning};
    ghost use Rattle.undo_manager.specs.Log.{entries};
    ghost use Rattle.std.specs.Prelude.{◌≡◌};
    ghost use Rattle.undo_manager.specs.Held.{held_in};
    ghost use Rattle.undo_manager.specs.Kept.{IsKeptInPlace};

    ghost Value = { Meaning };

    ghost view = { λ a. record { checked = a.checked.value; base = a.base; log = entries a.log.items } };

    ghost invariant = { λ a. IsKeptInPlace (a.checked.value) a.base a.state a.log.items a.opened.items × (a.held.held ≡ held_in (entries a.log.items)) };
}

impl UndoManager {
    /// A new object of a checked type. It takes no memory.
    ///
    /// # Errors
    ///
    /// The type was checked for another kind of recovery. It is handed back.
    pub fn new(
        alloc: Global,
        checked: Arc<CheckedType>,
    ) -> Result<UndoManager, (Arc<CheckedType>, WrongKind)>
        ensures kind { IsOk result ↔ (checked.value.kind ≡ Kind.Undo) }
        ensures fresh { IfOk result (λ m. IsFresh m × (m.checked ≡ checked.value)) }
        ensures back { IfErr result (λ e. e.0 ≡ checked) }
    {
        match checked.kind() {
            Kind::Undo => Ok(UndoManager::fresh(alloc, checked)),
            Kind::Intentions | Kind::Escrow => Err((checked, WrongKind)),
        }
    }

    /// The object of a type that was checked for update in place, at the initial state.
    pub(crate) fn fresh(alloc: Global, checked: Arc<CheckedType>) -> UndoManager
        requires { checked.value.kind ≡ Kind.Undo }
        ensures fresh { IsFresh result }
        ensures checked { result.checked ≡ checked.value }
    {
        checked_is_covered();
        fresh_is_sound();
        let initial = checked.file().table.initial();
        UndoManager {
            checked,
            base: initial,
            state: initial,
            log: Vec::new(alloc),
            held: OpLocks::new(alloc),
            opened: Vec::new(alloc),
        }
    }

    /// The length of the log, which is empty or begins with an open entry.
    pub fn log_len(&self) -> u32
        ensures exact { result ≡ length self.now.log }
        ensures front { BeginsOpen self.now.log }
    {
        self.log.len() as u32
    }
}
