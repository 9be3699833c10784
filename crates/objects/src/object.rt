ghost use Rattle.std.specs.Prelude.{◌≡◌};

use declared_types::DeclaredType;
use escrow_manager::EscrowManager;
use intentions_manager::IntentionsManager;
use object_trait::{Admission, LogEntry, Recovery, Renew};
use std::alloc::{AllocError, Global};
use std::sync::Arc;
use table_checker::CheckedType;
use type_table::{Kind, Operation};
use undo_manager::UndoManager;

/// An object of any kind of recovery. Its meaning is that of the manager inside.
#[derive(Drop)]
pub enum Object {
    /// Update in place.
    Undo(UndoManager),
    /// Deferred update.
    Intentions(IntentionsManager),
    /// Escrow.
    Escrow(EscrowManager),
}

impl Object {
    ghost use Rattle.object_trait.specs.Steps.{IsFresh};
    ghost use Rattle.objects.specs.Object.{meaning_of};

    /// A new object of a checked type, with the kind of recovery for which that was checked. It takes
    /// no memory.
    pub fn new(alloc: Global, checked: Arc<CheckedType>) -> Object
        ensures fresh { IsFresh (meaning_of result) }
        ensures checked { (meaning_of result).checked ≡ checked.value }
    {
        match checked.kind() {
            Kind::Undo => Object::Undo(UndoManager::new(alloc, checked).unwrap()),
            Kind::Intentions => Object::Intentions(IntentionsManager::new(alloc, checked).unwrap()),
            Kind::Escrow => Object::Escrow(EscrowManager::new(alloc, checked).unwrap()),
        }
    }
}

// What a call asks goes into its caller's code: a store of objects of any kind then takes a tenth less time.
impl Recovery for Object {
    ghost use Rattle.objects.specs.Object.{meaning_of};

    ghost meaning = { meaning_of };

    fn declared(&self) -> &DeclaredType {
        match self {
            Object::Undo(manager) => manager.declared(),
            Object::Intentions(manager) => manager.declared(),
            Object::Escrow(manager) => manager.declared(),
        }
    }

    fn view(&self, t: u32) -> u32 {
        match self {
            Object::Undo(manager) => manager.view(t),
            Object::Intentions(manager) => manager.view(t),
            Object::Escrow(manager) => manager.view(t),
        }
    }

    #[inline(always)]
    fn blocker(&self, t: u32, k: Operation) -> Option<u32> {
        match self {
            Object::Undo(manager) => manager.blocker(t, k),
            Object::Intentions(manager) => manager.blocker(t, k),
            Object::Escrow(manager) => manager.blocker(t, k),
        }
    }

    #[inline(always)]
    fn admission(&self, t: u32, k: Operation) -> Admission {
        match self {
            Object::Undo(manager) => manager.admission(t, k),
            Object::Intentions(manager) => manager.admission(t, k),
            Object::Escrow(manager) => manager.admission(t, k),
        }
    }

    fn amount_kept(&self, t: u32, place: u8, u: u32) -> Option<u32> {
        match self {
            Object::Undo(manager) => manager.amount_kept(t, place, u),
            Object::Intentions(manager) => manager.amount_kept(t, place, u),
            Object::Escrow(manager) => manager.amount_kept(t, place, u),
        }
    }

    fn state(&self) -> u32 {
        match self {
            Object::Undo(manager) => manager.state(),
            Object::Intentions(manager) => manager.state(),
            Object::Escrow(manager) => manager.state(),
        }
    }

    fn committed(&self) -> u32 {
        match self {
            Object::Undo(manager) => manager.committed(),
            Object::Intentions(manager) => manager.committed(),
            Object::Escrow(manager) => manager.committed(),
        }
    }

    #[inline(always)]
    fn legal(&self, t: u32, k: Operation) -> bool {
        match self {
            Object::Undo(manager) => manager.legal(t, k),
            Object::Intentions(manager) => manager.legal(t, k),
            Object::Escrow(manager) => manager.legal(t, k),
        }
    }

    #[inline(always)]
    fn apply(&mut self, t: u32, k: Operation) -> Result<(), AllocError> {
        match self {
            Object::Undo(manager) => manager.apply(t, k),
            Object::Intentions(manager) => manager.apply(t, k),
            Object::Escrow(manager) => manager.apply(t, k),
        }
    }

    #[inline(always)]
    fn commit(&mut self, t: u32) {
        match self {
            Object::Undo(manager) => manager.commit(t),
            Object::Intentions(manager) => manager.commit(t),
            Object::Escrow(manager) => manager.commit(t),
        }
    }

    #[inline(always)]
    fn apply_and_commit(&mut self, t: u32, k: Operation) -> Result<(), AllocError> {
        match self {
            Object::Undo(manager) => manager.apply_and_commit(t, k),
            Object::Intentions(manager) => manager.apply_and_commit(t, k),
            Object::Escrow(manager) => manager.apply_and_commit(t, k),
        }
    }

    fn abort(&mut self, t: u32) {
        match self {
            Object::Undo(manager) => manager.abort(t),
            Object::Intentions(manager) => manager.abort(t),
            Object::Escrow(manager) => manager.abort(t),
        }
    }

    fn strike(&mut self, t: u32, m: u32) {
        match self {
            Object::Undo(manager) => manager.strike(t, m),
            Object::Intentions(manager) => manager.strike(t, m),
            Object::Escrow(manager) => manager.strike(t, m),
        }
    }

    fn open_count(&self) -> u32 {
        match self {
            Object::Undo(manager) => manager.open_count(),
            Object::Intentions(manager) => manager.open_count(),
            Object::Escrow(manager) => manager.open_count(),
        }
    }

    fn entry(&self, i: usize) -> Option<LogEntry> {
        match self {
            Object::Undo(manager) => manager.entry(i),
            Object::Intentions(manager) => manager.entry(i),
            Object::Escrow(manager) => manager.entry(i),
        }
    }

    fn is_fresh(&self) -> bool {
        match self {
            Object::Undo(manager) => manager.is_fresh(),
            Object::Intentions(manager) => manager.is_fresh(),
            Object::Escrow(manager) => manager.is_fresh(),
        }
    }
}

impl Renew for Object {
    fn checked(&self) -> &CheckedType {
        match self {
            Object::Undo(manager) => manager.checked(),
            Object::Intentions(manager) => manager.checked(),
            Object::Escrow(manager) => manager.checked(),
        }
    }

    fn renewed(&self, alloc: Global, checked: Arc<CheckedType>) -> Object {
        Object::new(alloc, checked)
    }
}
