//! What a handle holds.

use crate::code::{Code, extend_code, new_code, renew_code};
use objects::Object;
use std::alloc::Global;
use std::mem;
use std::sync::Arc;
use store::Store;
use store_limits::Limits;
use table_checker::CheckedType;

/// What a handle holds. Its end is the end of what it holds: a store aborts what is open.
pub enum Held {
    /// A type, for which the checker said yes.
    OfType(Arc<CheckedType>),
    /// The objects so far of a store that isn't made yet.
    OfObjects(Vec<Object>),
    /// A store.
    OfStore(Store<Object>),
}

impl Drop for Held {
    fn drop(self) {
        match self {
            Held::OfType(_checked) => {}
            Held::OfObjects(_objects) => {}
            Held::OfStore(store) => {
                let (_history, _objects) = store.close();
            }
        }
    }
}

impl Held {
    ghost use Rattle.std.specs.Borrow.{sem};
    ghost use Rattle.std.specs.Prelude.{◌≡◌, [], List, Some, None, IsSome, is_some, map, MatchOption};
    ghost use Rattle.object_trait.specs.Meaning.{Meaning};
    ghost use Rattle.objects.specs.Object.{meaning_of};
    ghost use Rattle.store_laws.specs.Stored.{Stored};
    ghost use Rattle.library_calls.specs.Codes.{number};
    ghost use Rattle.library_calls.specs.Holding.{objects_at, store_at, type_at};
    ghost use Rattle.library_calls.specs.Lending.{LendsStore};
    ghost use Rattle.library_calls.specs.Making.{MakesStore};
    ghost use Rattle.library_calls.specs.Epochs.{IsExtension, IsRenewal};

    /// Whether it is a store.
    pub fn is_store(&self) -> bool
        ensures { result ≡ is_some (store_at (Some self.now)) }
    {
        matches!(self, Held::OfStore(_))
    }

    /// Whether it is a type.
    pub fn is_type(&self) -> bool
        ensures { result ≡ is_some (type_at (Some self.now)) }
    {
        matches!(self, Held::OfType(_))
    }

    /// The store that it is.
    pub fn store(&mut self) -> &mut Store<Object>
        requires { IsSome (store_at (Some self.old)) }
        ensures* lends { sem 𝓛 (LendsStore self.entry result) }
        ensures is { store_at (Some self.old) ≡ Some result.now }
    {
        match self {
            Held::OfStore(store) => store,
            Held::OfType(_) => unreachable!(),
            Held::OfObjects(_) => unreachable!(),
        }
    }

    /// The same, to read of it.
    pub fn stored(&self) -> &Store<Object>
        requires { IsSome (store_at (Some self.now)) }
        ensures { store_at (Some self.now) ≡ Some result.now }
    {
        match self {
            Held::OfStore(store) => store,
            Held::OfType(_) => unreachable!(),
            Held::OfObjects(_) => unreachable!(),
        }
    }

    /// The type that it is.
    pub fn checked(&self) -> &Arc<CheckedType>
        requires { IsSome (type_at (Some self.now)) }
        ensures { type_at (Some self.now) ≡ Some result.now.value }
    {
        match self {
            Held::OfType(checked) => checked,
            Held::OfObjects(_) => unreachable!(),
            Held::OfStore(_) => unreachable!(),
        }
    }

    /// Takes out the objects of which no store is made yet: none are left.
    pub(crate) fn take_objects(&mut self, alloc: Global) -> Option<Vec<Object>>
        ensures { MatchOption result
            ((objects_at (Some self.old) ≡ None) × (self.new ≡ self.old))
            (λ objects. (objects_at (Some self.old) ≡ Some (map meaning_of objects.items)) × (objects_at (Some self.new) ≡ Some [])) }
    {
        match self {
            Held::OfObjects(objects) => Some(mem::replace(objects, Vec::new(alloc))),
            Held::OfType(_) => None,
            Held::OfStore(_) => None,
        }
    }

    /// The store of these objects; else what there was, and why not.
    pub(crate) fn made(self, alloc: Global, limits: Limits) -> (Held, Code)
        ensures makes { (ms : List Meaning) → objects_at (Some self) ≡ Some ms → MakesStore ms limits (number result.1) (Some result.0) }
        ensures no_objects { objects_at (Some self) ≡ None → (result.1 ≡ Code.NotHeld) × (result.0 ≡ self) }
    {
        match self {
            Held::OfObjects(objects) => match Store::with_limits(alloc, objects, limits) {
                Ok(store) => (Held::OfStore(store), Code::Done),
                Err((objects, refusal)) => (Held::OfObjects(objects), new_code(refusal)),
            },
            Held::OfType(checked) => (Held::OfType(checked), Code::NotHeld),
            Held::OfStore(store) => (Held::OfStore(store), Code::NotHeld),
        }
    }

    /// The store that begins anew where this one is, with all that is open; else what there was, and why not.
    pub(crate) fn renewed(self, alloc: Global) -> (Held, Code)
        ensures renews { (s : Stored) → store_at (Some self) ≡ Some s → IsRenewal s (number result.1) (Some result.0) }
        ensures no_store { store_at (Some self) ≡ None → (result.1 ≡ Code.NotHeld) × (result.0 ≡ self) }
    {
        match self {
            Held::OfStore(store) => match store.renew_unseen(alloc) {
                Ok((anew, _history)) => (Held::OfStore(anew), Code::Done),
                Err((kept, refusal)) => (Held::OfStore(kept), renew_code(refusal)),
            },
            Held::OfType(checked) => (Held::OfType(checked), Code::NotHeld),
            Held::OfObjects(objects) => (Held::OfObjects(objects), Code::NotHeld),
        }
    }

    /// The store that begins anew with these objects more, where this one is; else what there was, and why not.
    pub(crate) fn extended(self, alloc: Global, added: Vec<Object>) -> (Held, Code)
        ensures extends { (s : Stored) → store_at (Some self) ≡ Some s → IsExtension s (map meaning_of added.items) (number result.1) (Some result.0) }
        ensures no_store { store_at (Some self) ≡ None → (result.1 ≡ Code.NotHeld) × (result.0 ≡ self) }
    {
        match self {
            Held::OfStore(store) => match store.renew_with(alloc, added) {
                Ok((grown, _history)) => (Held::OfStore(grown), Code::Done),
                Err((kept, refusal)) => (Held::OfStore(kept), extend_code(refusal)),
            },
            Held::OfType(checked) => (Held::OfType(checked), Code::NotHeld),
            Held::OfObjects(objects) => (Held::OfObjects(objects), Code::NotHeld),
        }
    }
}
