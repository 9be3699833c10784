//! Beginning anew at another state.

ghost use Rattle.std.specs.Prelude.{◌≡◌};
ghost use Rattle.object_trait.specs.Steps.{IsFresh};

use crate::recovery::Recovery;
use std::alloc::Global;
use std::sync::Arc;
use table_checker::CheckedType;

/// An object of which there can be another, of a type of the same kind of recovery.
pub trait Renew: Recovery + Sized {
    /// The type for whose kind of recovery the checker said yes.
    fn checked(&self) -> &CheckedType
        ensures { result.now ≡ (Self.meaning self.now).checked };

    /// An object of this type, as it was made. It takes no memory.
    fn renewed(&self, alloc: Global, checked: Arc<CheckedType>) -> Self
        requires { checked.value.kind ≡ (Self.meaning self.now).checked.kind }
        ensures fresh { IsFresh (Self.meaning result) }
        ensures checked { (Self.meaning result).checked ≡ checked.value };
}
