//! Accounts: a balance from 0 to a cap, deposits and withdrawals of given amounts, and the balance
//! as a reply.

ghost use Rattle.std.specs.Prelude.{◌≡◌, ◌+◌, ◌<◌, ◌++◌, ◌↔◌, codes, map, IsTrue, IfOk};
ghost use Rattle.std.specs.List.{flat_map, range_with_len};
ghost use Rattle.table_families.specs.Account.{account, balance_op, AccountFits};
ghost use Rattle.table_families.specs.Amounts.{AreAmounts, amount_ops};
ghost use Rattle.table_maker.specs.Made.{Makes};

use crate::amounts::{amount_step, amounts_ops, are_amounts};
use declared_types::TypeFile;
use std::alloc::{AllocError, Global};
use table_maker::{FamilyRules, MakeError, make_file, named, push_replies, where_legal};
use type_table::Op;

/// The type file of an account of 0 to a cap of 1 to 1,023, with the set of all states.
///
/// The amounts are 1 to the cap, strictly ascending, at least one; four operations for each amount
/// and one for each balance are at most 64 in all. The state is the balance, and it begins at 0. For
/// each amount a, `deposit:a ok` adds a where the sum is at most the cap, and `deposit:a full` is
/// legal where it isn't; `withdraw:a ok` takes a off where the balance is at least a, and
/// `withdraw:a short` is legal where it isn't. `balance b` is legal where the balance is b.
///
/// # Errors
///
/// The first that holds of `BadParameter`, `TooLarge` and `NoMemory`.
pub fn make_account(alloc: Global, cap: u16, amounts: &[u16]) -> Result<TypeFile, MakeError>
    ensures { Makes result (AreAmounts cap amounts.now) (AccountFits cap amounts.now) (account cap amounts.now) }
{
    if !are_amounts(cap, amounts) {
        return Err(MakeError::BadParameter);
    }
    if !fits(cap, amounts) {
        return Err(MakeError::TooLarge);
    }
    let ops = account_ops(alloc, cap, amounts)?;
    let rules = AccountRules { cap, amounts };
    make_file(alloc, &rules, named(b"account"), cap + 1, ops)
}

/// Whether the operations are at most 64.
fn fits(cap: u16, amounts: &[u16]) -> bool
    ensures { IsTrue result ↔ AccountFits cap amounts.now }
{
    amounts.len() <= 16 && 4 * amounts.len() + (cap as usize + 1) <= 64
}

/// The parameters of an account.
#[derive(Clone, Copy)]
struct AccountRules<'a> {
    cap: u16,
    amounts: &'a [u16],
}

impl FamilyRules for AccountRules<'_> {
    ghost family = { λ rules. account rules.cap rules.amounts.now };

    fn step(&self, s: u16, k: u8) -> Option<u16> {
        let k = k as usize;
        match self.amounts.get(k / 4) {
            Some(amount) => amount_step(self.cap, *amount, k % 4, s),
            None => where_legal(k - 4 * self.amounts.len() == s as usize, s),
        }
    }
}

/// The operations of an account.
fn account_ops(alloc: Global, cap: u16, amounts: &[u16]) -> Result<Vec<Op>, AllocError>
    requires { cap < 1024 }
    ensures { IfOk result (λ ops. ops.items ≡ flat_map (amount_ops (codes "deposit:") (codes "withdraw:")) amounts.now ++ map balance_op (range_with_len 0 (cap + 1))) }
{
    let mut ops = amounts_ops(alloc, b"deposit:", b"withdraw:", amounts)?;
    push_replies(alloc, &mut ops, named(b"balance"), cap + 1)?;
    Ok(ops)
}
