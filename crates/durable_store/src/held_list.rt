//! Transactions that are prepared and not decided.

ghost use Rattle.std.specs.Prelude.{◌≡◌, ◌<◌, IfOk, map};
ghost use Rattle.std.specs.Option.{option_copied};
ghost use Rattle.object_trait.specs.Orders.{Pairs};
ghost use Rattle.carried_runs.specs.Carried.{number_in};
ghost use Rattle.serial_order.specs.Operations.{is_among};
ghost use Rattle.durable_store.specs.Held.{AreTheirNumbers, but_number, first_passing, has_key, has_number, has_place, prepared_numbers, moved_among};

use journal::Prepared;
use std::alloc::{AllocError, Global};
use transaction_key::TransactionKey;

/// Whether transaction t is one of these.
pub(crate) fn has_transaction(prepared: &[Prepared], t: u32) -> bool
    ensures { result ≡ is_among (prepared_numbers prepared.now) t }
{
    prepared.iter().any(|p| p.number == t)
}

/// The first of these that is transaction t.
pub(crate) fn of_transaction(prepared: &[Prepared], t: u32) -> Option<&Prepared>
    ensures { option_copied result ≡ first_passing (has_number t) prepared.now }
{
    prepared.iter().find(|p| p.number == t)
}

/// The first of these under this key.
pub(crate) fn under_key<'a>(prepared: &'a [Prepared], key: &TransactionKey) -> Option<&'a Prepared>
    ensures { option_copied result ≡ first_passing (has_key key.now) prepared.now }
{
    prepared.iter().find(|p| p.key == *key)
}

/// The first of these whose key has its row at the place of this one.
pub(crate) fn at_place<'a>(prepared: &'a [Prepared], key: &TransactionKey) -> Option<&'a Prepared>
    ensures { option_copied result ≡ first_passing (has_place key.now) prepared.now }
{
    let place = key.place();
    prepared.iter().find(|p| p.key.place() == place)
}

/// Takes transaction t out.
pub(crate) fn remove_transaction(prepared: &mut Vec<Prepared>, t: u32)
    ensures { prepared.new.items ≡ but_number t prepared.old.items }
{
    prepared.retain(|p| p.number != t);
}

/// Their numbers.
///
/// # Errors
///
/// Memory was refused.
pub(crate) fn numbers_of(alloc: Global, prepared: &[Prepared]) -> Result<Vec<u32>, AllocError>
    ensures { IfOk result (λ those. those.items ≡ prepared_numbers prepared.now) }
{
    let mut those = Vec::with_capacity(alloc, prepared.len())?;
    for p in prepared {
        those.push_reserved(p.number);
    }
    Ok(those)
}

/// Their numbers, in their order.
///
/// # Errors
///
/// Memory was refused.
pub(crate) fn in_order(alloc: Global, prepared: &[Prepared]) -> Result<Vec<u32>, AllocError>
    ensures { IfOk result (λ those. AreTheirNumbers prepared.now those.items) }
{
    let mut those = numbers_of(alloc, prepared)?;
    those.sort_unstable();
    those.dedup();
    Ok(those)
}

/// With the numbers that they have where those are carried.
///
/// # Errors
///
/// Memory was refused, or one isn't among those.
pub(crate) fn renumbered(
    alloc: Global,
    prepared: &[Prepared],
    those: &[u32],
) -> Result<Vec<Prepared>, AllocError>
    requires { Pairs (λ a b. a < b) those.now }
    ensures { IfOk result (λ now. now.items ≡ map (moved_among those.now) prepared.now) }
{
    let mut now = Vec::with_capacity(alloc, prepared.len())?;
    for p in prepared {
        let mut moved = *p;
        moved.number = new_number(those, p.number)?;
        now.push_reserved(moved);
    }
    Ok(now)
}

/// How many of those stand before t.
///
/// # Errors
///
/// `AllocError` where t isn't one of them: as where memory is refused, nothing goes over.
fn new_number(those: &[u32], t: u32) -> Result<u32, AllocError>
    requires { Pairs (λ a b. a < b) those.now }
    ensures { IfOk result (λ number. number ≡ number_in those.now t) }
{
    match those.binary_search(&t) {
        Ok(place) => Ok(place as u32),
        Err(_) => Err(AllocError),
    }
}
