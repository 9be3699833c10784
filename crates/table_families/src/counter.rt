//! Counters: a number from 0 to a cap, and steps up and down by given amounts.

ghost use Rattle.std.specs.Prelude.{◌≡◌, ◌++◌, IfOk, OnOk};
ghost use Rattle.std.specs.List.{flat_map};
ghost use Rattle.table_families.specs.Amounts.{AreAmounts};
ghost use Rattle.table_families.specs.Counter.{counter, change_ops, CounterFits};
ghost use Rattle.table_maker.specs.Made.{Makes};

use crate::amounts::{added, are_amounts, taken_off};
use declared_types::TypeFile;
use std::alloc::{AllocError, Global};
use table_maker::{FamilyRules, MakeError, make_file, named, numbered, push_two};
use type_table::Op;

/// The type file of a counter from 0 to a cap of 1 to 1,023, with the set of all states.
///
/// The amounts are 1 to the cap, strictly ascending, at least one and at most 32. The state is the
/// number, and it begins at 0. For each amount a, `inc:a ok` adds a where the sum is at most the cap,
/// and `dec:a ok` takes a off where the number is at least a.
///
/// # Errors
///
/// The first that holds of `BadParameter`, `TooLarge` and `NoMemory`.
pub fn make_counter(alloc: Global, cap: u16, amounts: &[u16]) -> Result<TypeFile, MakeError>
    ensures { Makes result (AreAmounts cap amounts.now) (CounterFits amounts.now) (counter cap amounts.now) }
{
    if !are_amounts(cap, amounts) {
        return Err(MakeError::BadParameter);
    }
    if amounts.len() > 32 {
        return Err(MakeError::TooLarge);
    }
    let ops = counter_ops(alloc, amounts)?;
    let rules = CounterRules { cap, amounts };
    make_file(alloc, &rules, named(b"counter"), cap + 1, ops)
}

/// The parameters of a counter.
#[derive(Clone, Copy)]
struct CounterRules<'a> {
    cap: u16,
    amounts: &'a [u16],
}

impl FamilyRules for CounterRules<'_> {
    ghost family = { λ rules. counter rules.cap rules.amounts.now };

    fn step(&self, s: u16, k: u8) -> Option<u16> {
        let amount = self.amounts[k as usize / 2];
        if k % 2 == 0 {
            added(self.cap, amount, s)
        } else {
            taken_off(amount, s)
        }
    }
}

/// The operations of a counter.
fn counter_ops(alloc: Global, amounts: &[u16]) -> Result<Vec<Op>, AllocError>
    ensures { IfOk result (λ ops. ops.items ≡ flat_map change_ops amounts.now) }
{
    let mut ops = Vec::new(alloc);
    for amount in amounts {
        push_changes(alloc, &mut ops, *amount)?;
    }
    Ok(ops)
}

/// Adds the two operations of an amount.
fn push_changes(alloc: Global, ops: &mut Vec<Op>, amount: u16) -> Result<(), AllocError>
    ensures { OnOk result (ops.new.items ≡ ops.old.items ++ change_ops amount) }
{
    let ok = named(b"ok");
    let inc = Op {
        call: numbered(alloc, b"inc:", amount)?,
        reply: ok,
    };
    let dec = Op {
        call: numbered(alloc, b"dec:", amount)?,
        reply: ok,
    };
    push_two(ops, inc, dec)
}
