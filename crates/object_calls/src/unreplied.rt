//! Which call an answer without a reply tells of.

ghost use Rattle.std.specs.Prelude.{◌≡◌, ℕ, Some, IfSome};
ghost use Rattle.type_table.specs.Operation.{operation_at, place_of};
ghost use Rattle.type_table.specs.Table.{call_of, first_op};
ghost use Rattle.number_types.specs.Operations.{number_table};
ghost use Rattle.object_calls.specs.Answers.{busy_answer, answer_of};

use declared_types::Declaration;
use number_types::{NumberFile, number_has_table, numbers_answer};
use object_trait::Recovery;
use type_table::Operation;

/// Of the calls whose first operation has this place one for which t is answered `Busy` with this holder, or `None` where
/// there is no holder. Where no call there is answered so, the result says nothing.
pub fn call_unreplied<R: Recovery>(
    object: &R,
    t: u32,
    place: u8,
    holder: Option<u32>,
) -> Option<Operation>
    ensures place { IfSome result (λ c. place_of c ≡ place) }
    ensures found { (d : ℕ) → first_op (R.meaning object.now).checked.file.table (call_of (R.meaning object.now).checked.file.table d) ≡ Some d → place_of d ≡ place
        → answer_of (R.meaning object.now) t d ≡ busy_answer holder
        → (c : ℕ) × (result ≡ Some c) × (first_op (R.meaning object.now).checked.file.table (call_of (R.meaning object.now).checked.file.table c) ≡ Some c)
        × (answer_of (R.meaning object.now) t c ≡ busy_answer holder) }
{
    match object.declared().declaration() {
        Declaration::Table(file) => {
            // (read for its clause on what is known of a table)
            let _states = file.table.states();
            Some(Operation::listed(place))
        }
        Declaration::Number(number) => number_unreplied(object, number, t, place, holder),
    }
}

/// That of a number. Of each of its calls an operation is legal, so a call without a reply waits for somebody.
fn number_unreplied<R: Recovery>(
    object: &R,
    number: &NumberFile,
    t: u32,
    place: u8,
    holder: Option<u32>,
) -> Option<Operation>
    requires { (R.meaning object.now).checked.file.table ≡ number_table number.now }
    ensures place { IfSome result (λ c. place_of c ≡ place) }
    ensures found { (d : ℕ) → first_op (R.meaning object.now).checked.file.table (call_of (R.meaning object.now).checked.file.table d) ≡ Some d → place_of d ≡ place
        → answer_of (R.meaning object.now) t d ≡ busy_answer holder
        → (c : ℕ) × (result ≡ Some c) × (first_op (R.meaning object.now).checked.file.table (call_of (R.meaning object.now).checked.file.table c) ≡ Some c)
        × (answer_of (R.meaning object.now) t c ≡ busy_answer holder) }
{
    number_has_table();
    numbers_answer();
    // (read for what is known of a number, and of the one that t sees)
    let _calls = number.calls();
    let _seen = object.view(t);
    let u = holder?;
    if place % 2 != 0 {
        return None;
    }
    match object.amount_kept(t, place, u) {
        Some(n) => first_with(number, place, n),
        None => Some(Operation::listed(place)),
    }
}

/// The first operation of the call of the one with this place and this amount.
fn first_with(number: &NumberFile, place: u8, amount: u32) -> Option<Operation>
    ensures { result ≡ first_op (number_table number.now) (call_of (number_table number.now) (operation_at place (Some amount))) }
{
    let op = number.op(Operation::with(place, amount))?;
    number.first_op(op.call.as_bytes())
}
