//! The numbers by which operations cross.

ghost use Rattle.std.specs.Prelude.{◌≡◌, ◌≤◌, length};
ghost use Rattle.declared_types.specs.Declarations.{table_of, IsFitDeclaration};
ghost use Rattle.library_calls.specs.Operations.{operation_count, operation_by_number};

use declared_types::{Declaration, DeclaredType};
use type_table::Operation;

/// More than there are places of operations: a place is a byte.
const PLACES: u64 = 256;

/// The number of an operation: its place, and with the amount n 256 * (n + 1) more.
pub(crate) fn number_of(k: Operation) -> u64
    ensures { result ≡ k }
{
    let place = u64::from(k.place());
    match k.amount() {
        Some(amount) => place + PLACES * (u64::from(amount) + 1),
        None => place,
    }
}

/// The operation with a number: None above that of the last place with the greatest amount.
pub(crate) fn operation_of(number: u64) -> Option<Operation>
    ensures { result ≡ operation_by_number number }
{
    let place = (number % PLACES) as u8;
    match number / PLACES {
        0 => Some(Operation::listed(place)),
        above => {
            let amount = u32::try_from(above - 1).ok()?;
            Some(Operation::with(place, amount))
        }
    }
}

/// What declares a type, and what is known of it: no operation has a greater number than those that cross.
pub(crate) fn known(declared: &DeclaredType) -> &DeclaredType
    ensures same { result.now ≡ declared.now }
    ensures fit { IsFitDeclaration declared.now }
    ensures few { length (table_of declared.now).ops ≤ operation_count }
{
    match declared.declaration() {
        Declaration::Table(file) => {
            // (read for its clause on what is known of a table)
            let _states = file.table.states();
        }
        Declaration::Number(number) => {
            // (read for its clause on what is known of a number)
            let _calls = number.calls();
        }
    }
    declared
}
