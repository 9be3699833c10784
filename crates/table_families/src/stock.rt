//! Stocks: how many there are, from 0 to a cap, given and taken by given amounts.

ghost use Rattle.table_families.specs.Amounts.{AreAmounts};
ghost use Rattle.table_maker.specs.Made.{Makes};
ghost use Rattle.table_families.specs.Stock.{stock, StockFits};

use crate::amounts::{amount_step, amounts_ops, are_amounts};
use declared_types::TypeFile;
use std::alloc::Global;
use table_maker::{FamilyRules, MakeError, make_file, named};

/// The type file of a stock of 0 to a cap of 1 to 1,023, with the set of all states.
///
/// The amounts are 1 to the cap, strictly ascending, at least one and at most 16. The state is how
/// many there are, and it begins at 0. For each amount a, `give:a ok` adds a where the sum is at most
/// the cap, and `give:a full` is legal where it isn't; `take:a ok` takes a off where there are at least
/// a, and `take:a short` is legal where there aren't.
///
/// # Errors
///
/// The first that holds of `BadParameter`, `TooLarge` and `NoMemory`.
pub fn make_stock(alloc: Global, cap: u16, amounts: &[u16]) -> Result<TypeFile, MakeError>
    ensures { Makes result (AreAmounts cap amounts.now) (StockFits amounts.now) (stock cap amounts.now) }
{
    if !are_amounts(cap, amounts) {
        return Err(MakeError::BadParameter);
    }
    if amounts.len() > 16 {
        return Err(MakeError::TooLarge);
    }
    let ops = amounts_ops(alloc, b"give:", b"take:", amounts)?;
    let rules = StockRules { cap, amounts };
    make_file(alloc, &rules, named(b"stock"), cap + 1, ops)
}

/// The parameters of a stock.
#[derive(Clone, Copy)]
struct StockRules<'a> {
    cap: u16,
    amounts: &'a [u16],
}

impl FamilyRules for StockRules<'_> {
    ghost family = { λ rules. stock rules.cap rules.amounts.now };

    fn step(&self, s: u16, k: u8) -> Option<u16> {
        let amount = self.amounts[k as usize / 4];
        amount_step(self.cap, amount, k as usize % 4, s)
    }
}
