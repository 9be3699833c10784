//! What a manager reads of its type.

ghost use Rattle.std.specs.Prelude.{◌≡◌, ◌<◌, Some, length, slice_get};
ghost use Rattle.type_table.specs.declared.kind.Kind.TheVariants.{Escrow};
ghost use Rattle.escrow_manager.specs.Numeric.{bounds_in, greatest, IsInEscrow};

use escrow_laws::Bounded;
use table_checker::CheckedType;
use type_table::Operation;

/// The greatest number. The least is 0.
pub fn greatest(checked: &CheckedType) -> u32
    ensures exact { result ≡ greatest checked.now }
{
    checked.greatest()
}

/// The number at which it begins.
pub fn initial(checked: &CheckedType) -> u32
    ensures exact { result ≡ checked.now.file.table.initial }
    ensures numeric { checked.now.kind ≡ Escrow → IsInEscrow checked.now }
{
    checked.initial()
}

/// The bounds of operation k.
pub fn bounded(checked: &CheckedType, k: Operation) -> Bounded
    requires kind { checked.now.kind ≡ Escrow }
    requires operation { k < length checked.now.file.table.ops }
    ensures { slice_get (bounds_in checked.now) k ≡ Some result }
{
    checked.bounded(k)
}
