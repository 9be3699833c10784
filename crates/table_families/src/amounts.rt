//! Amounts that are put in and taken out: parameters, operations and steps.

ghost use Rattle.std.specs.Prelude.{◌≡◌, ℕ, ◌+◌, ◌-◌, ◌<◌, ◌≤◌, ◌↔◌, true, [], ◌∷◌, ◌++◌, codes, length, nat_le, IsTrue, IfOk, OnOk};
ghost use Rattle.std.specs.List.{flat_map, list_all};
ghost use Rattle.type_table.specs.Name.{is_name_byte};
ghost use Rattle.table_families.specs.Amounts.{AreAmounts, amount_at, amount_ops, amount_step, is_amount_up_to};
ghost use Rattle.table_maker.specs.Made.{op_named, where_legal};

use std::alloc::{AllocError, Global};
use table_maker::{named, numbered, push_two, where_legal};
use type_table::{Name, Op};

/// Whether the cap is 1 to 1,023, and the amounts are 1 to the cap and strictly ascending, at least
/// one.
pub fn are_amounts(cap: u16, amounts: &[u16]) -> bool
    ensures { IsTrue result ↔ AreAmounts cap amounts.now }
{
    if cap < 1 || cap > 1023 {
        return false;
    }
    if amounts.is_empty() {
        return false;
    }
    if !are_within(cap, amounts) {
        return false;
    }
    ascend(amounts)
}

/// Whether each amount is 1 to the cap.
fn are_within(cap: u16, amounts: &[u16]) -> bool
    ensures { result ≡ list_all (is_amount_up_to cap) amounts.now }
{
    amounts.iter().all(|a| 1 <= *a && *a <= cap)
}

/// Whether the amounts are strictly ascending.
fn ascend(amounts: &[u16]) -> bool
    ensures { IsTrue result ↔ ((i : ℕ) → i + 1 < length amounts.now → amount_at amounts.now i < amount_at amounts.now (i + 1)) }
{
    for i in 1..amounts.len() {
        if amounts[i - 1] >= amounts[i] {
            return false;
        }
    }
    true
}

/// The number after an amount is added, where there is room.
pub fn added(cap: u16, amount: u16, s: u16) -> Option<u16>
    ensures { result ≡ where_legal (nat_le (s + amount) cap) (s + amount) }
{
    let sum = s as u32 + amount as u32;
    if sum <= cap as u32 {
        Some(sum as u16)
    } else {
        None
    }
}

/// The number after an amount is taken off, where there is that much.
pub fn taken_off(amount: u16, s: u16) -> Option<u16>
    ensures { result ≡ where_legal (nat_le amount s) (s - amount) }
{
    if amount <= s { Some(s - amount) } else { None }
}

/// The step of an operation of an amount, by its place among the four.
pub fn amount_step(cap: u16, amount: u16, place: usize, s: u16) -> Option<u16>
    ensures { result ≡ amount_step cap amount place s }
{
    match place {
        0 => added(cap, amount, s),
        1 => where_legal((cap as u32) < s as u32 + amount as u32, s),
        2 => taken_off(amount, s),
        _ => where_legal(s < amount, s),
    }
}

/// The operations of the amounts, four of each, by the words of its two calls: what is put in is `ok` or
/// `full`, and what is taken out is `ok` or `short`.
pub fn amounts_ops(
    alloc: Global,
    put: &[u8],
    taken: &[u8],
    amounts: &[u16],
) -> Result<Vec<Op>, AllocError>
    requires put_bytes { list_all is_name_byte put.now ≡ true }
    requires put_short { length put.now ≤ 27 }
    requires taken_bytes { list_all is_name_byte taken.now ≡ true }
    requires taken_short { length taken.now ≤ 27 }
    ensures { IfOk result (λ ops. ops.items ≡ flat_map (amount_ops put.now taken.now) amounts.now) }
{
    let mut ops = Vec::new(alloc);
    for amount in amounts {
        push_amount(alloc, &mut ops, put, taken, *amount)?;
    }
    Ok(ops)
}

/// Adds the four operations of an amount.
fn push_amount(
    alloc: Global,
    ops: &mut Vec<Op>,
    put: &[u8],
    taken: &[u8],
    amount: u16,
) -> Result<(), AllocError>
    requires put_bytes { list_all is_name_byte put.now ≡ true }
    requires put_short { length put.now ≤ 27 }
    requires taken_bytes { list_all is_name_byte taken.now ≡ true }
    requires taken_short { length taken.now ≤ 27 }
    ensures { OnOk result (ops.new.items ≡ ops.old.items ++ amount_ops put.now taken.now amount) }
{
    push_outcomes(ops, numbered(alloc, put, amount)?, named(b"full"))?;
    push_outcomes(ops, numbered(alloc, taken, amount)?, named(b"short"))?;
    Ok(())
}

/// Adds the operations of a call that is done or isn't.
fn push_outcomes(ops: &mut Vec<Op>, call: Name, not_done: Name) -> Result<(), AllocError>
    ensures { OnOk result (ops.new.items ≡ ops.old.items ++ op_named call (codes "ok") ∷ op_named call not_done ∷ []) }
{
    let done = Op {
        call,
        reply: named(b"ok"),
    };
    push_two(
        ops,
        done,
        Op {
            call,
            reply: not_done,
        },
    )
}
