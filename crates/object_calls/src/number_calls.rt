//! The calls of a number, worked out of its lines.

ghost use Rattle.std.specs.Prelude.{◌≡◌, ◌<◌, ℕ, List, Some, IsSome, IfSome};
ghost use Rattle.std.specs.Option.{option_map};
ghost use Rattle.type_table.specs.Operation.{place_of};
ghost use Rattle.type_table.specs.Table.{first_op, call_of};
ghost use Rattle.number_types.specs.Operations.{number_table};
ghost use Rattle.object_calls.specs.Calls.{IsCall, HasLine};

use crate::call::Call;
use number_types::NumberFile;
use type_table::Operation;

/// The call with this name.
pub fn call_by_name(number: &NumberFile, name: &[u8]) -> Option<Call>
    ensures named { option_map (λ (c : Call). c.first) result ≡ first_op (number_table number.now) name.now }
    ensures call { IfSome result (IsCall (number_table number.now)) }
{
    // (read for what is known of a number)
    let _calls = number.calls();
    let first = number.first_op(name)?;
    Some(line_call(first))
}

/// The call with this number, where an operation with it is the first of a call.
pub fn call_by_number(number: &NumberFile, c: Operation) -> Option<Call>
    ensures named { (name : List ℕ) → first_op (number_table number.now) name ≡ Some c → IsSome result }
    ensures call { IfSome result (λ call. (call.first ≡ c) × IsCall (number_table number.now) call) }
{
    // (read for what is known of a number)
    let _calls = number.calls();
    if number.is_first(c) {
        Some(line_call(c))
    } else {
        None
    }
}

/// The call of a line, by its first operation.
fn line_call(first: Operation) -> Call
    requires { place_of first < 64 }
    ensures first { result.first ≡ first }
    ensures line { HasLine (place_of first) result.operations }
{
    Call {
        first,
        operations: 3 << (first.place() / 2 * 2),
    }
}
