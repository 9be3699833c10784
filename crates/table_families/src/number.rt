//! Numbers: they have no table, and amounts are taken and given.

ghost use Rattle.std.specs.Prelude.{◌≡◌, ℕ, ◌+◌, ◌<◌, ◌↔◌, length, IsTrue, IfOk};
ghost use Rattle.std.specs.List.{list_all};
ghost use Rattle.table_families.specs.Amounts.{amount_at, is_amount_up_to};
ghost use Rattle.table_families.specs.Number.{AreNumberAmounts, MakesNumber, NumberFits, amount_calls, amounts_number};

use number_types::{NumberCall, NumberFile, number_with};
use std::alloc::{AllocError, Global};
use table_maker::{MakeError, named};

/// The number of 0 to a greatest value of 1 to 4,294,967,295, beginning at 0.
///
/// The amounts are 1 to the greatest value, strictly ascending, at least one and at most 16. First come the
/// calls that take an amount, ascending, and then those that give one. Of each amount a, `take:a ok` takes a
/// off where there are at least a, and `take:a short` is legal where there aren't; `give:a ok` adds a where
/// the sum is at most the greatest value, and `give:a full` is legal where it isn't.
///
/// # Errors
///
/// The first that holds of `BadParameter`, `TooLarge` and `NoMemory`.
pub fn make_number(alloc: Global, max: u32, amounts: &[u32]) -> Result<NumberFile, MakeError>
    ensures { MakesNumber result (AreNumberAmounts max amounts.now) (NumberFits amounts.now) (amounts_number max amounts.now) }
{
    if !are_number_amounts(max, amounts) {
        return Err(MakeError::BadParameter);
    }
    if amounts.len() > 16 {
        return Err(MakeError::TooLarge);
    }
    let calls = amount_calls(alloc, amounts)?;
    let number = number_with(alloc, named(b"number"), max, 0, calls)?;
    Ok(number)
}

/// Whether the greatest value is at least 1, and the amounts are 1 to it and strictly ascending, at least
/// one.
fn are_number_amounts(max: u32, amounts: &[u32]) -> bool
    ensures { IsTrue result ↔ AreNumberAmounts max amounts.now }
{
    if max < 1 || amounts.is_empty() {
        return false;
    }
    if !are_within(max, amounts) {
        return false;
    }
    ascend(amounts)
}

/// Whether each amount is 1 to the greatest value.
fn are_within(max: u32, amounts: &[u32]) -> bool
    ensures { result ≡ list_all (is_amount_up_to max) amounts.now }
{
    amounts.iter().all(|a| 1 <= *a && *a <= max)
}

/// Whether the amounts are strictly ascending.
fn ascend(amounts: &[u32]) -> bool
    ensures { IsTrue result ↔ ((i : ℕ) → i + 1 < length amounts.now → amount_at amounts.now i < amount_at amounts.now (i + 1)) }
{
    for i in 1..amounts.len() {
        if amounts[i - 1] >= amounts[i] {
            return false;
        }
    }
    true
}

/// The calls of the amounts: first each is taken, then each is given.
fn amount_calls(alloc: Global, amounts: &[u32]) -> Result<Vec<NumberCall>, AllocError>
    ensures { IfOk result (λ calls. calls.items ≡ amount_calls amounts.now) }
{
    let takes = amounts.iter().map(|a| NumberCall::Take(*a));
    let gives = amounts.iter().map(|a| NumberCall::Give(*a));
    takes.chain(gives).collect(alloc)
}
