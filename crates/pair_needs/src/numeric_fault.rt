//! Escrow: why a type isn't numeric.

ghost use Rattle.std.specs.Prelude.{◌≡◌, ◌<◌, ◌≤◌, ℕ, None, Some, length, MatchOption};
ghost use Rattle.type_table.specs.Table.{next};
ghost use Rattle.escrow_laws.specs.Faults.{HasGap, IsNumericFault};
ghost use Rattle.pair_needs.specs.WhyNot.{IsFirstLegalFrom, IsLegalFrom, IsWhyNot};

use type_table::{TypeTable, steps_within};

/// The states that show that an operation isn't one of a number, at a state.
#[derive(Clone, Copy)]
pub enum WhyNot {
    /// It is illegal in the state, and legal in these two, the least of all and the next one above.
    Gap { low: u16, high: u16 },
    /// It leads from the state to `end`, and from the least in which it is legal elsewhere.
    Move { low: u16, low_end: u16, end: u16 },
}

/// The states that show why a type isn't numeric, at an operation and a state that are at fault.
pub fn why_not(table: &TypeTable, k: u8, s: u16) -> WhyNot
    requires operation { k < length table.now.ops }
    requires state { s < table.now.states }
    requires fault { IsNumericFault table.now k s }
    ensures { IsWhyNot table.now k s result }
{
    match table.next(s, k) {
        None => gap_at(table, k, s),
        Some(end) => move_at(table, k, s, end),
    }
}

/// The states on both sides of one in which an operation is illegal.
fn gap_at(table: &TypeTable, k: u8, s: u16) -> WhyNot
    requires operation { k < length table.now.ops }
    requires gap { HasGap table.now k s }
    ensures { IsWhyNot table.now k s result }
{
    let low = least_from(table, k, 0);
    let high = least_from(table, k, s);
    WhyNot::Gap { low, high }
}

/// Where an operation leads from a state, and where from the least in which it is legal.
fn move_at(table: &TypeTable, k: u8, s: u16, end: u16) -> WhyNot
    requires operation { k < length table.now.ops }
    requires leads { next table.now s k ≡ Some end }
    ensures { IsWhyNot table.now k s result }
{
    let low = least_from(table, k, 0);
    let low_end = table.next(low, k).unwrap_or(low);
    WhyNot::Move { low, low_end, end }
}

/// The least state from one on, where there is any.
fn least_from(table: &TypeTable, k: u8, start: u16) -> u16
    requires operation { k < length table.now.ops }
    requires some { IsLegalFrom table.now k start }
    ensures first { IsFirstLegalFrom table.now k start result }
    ensures inside { result < table.now.states }
{
    first_legal(table, k, start).unwrap_or(start)
}

/// The least state in which an operation is legal, from a state on.
fn first_legal(table: &TypeTable, k: u8, start: u16) -> Option<u16>
    requires { k < length table.now.ops }
    ensures { MatchOption result
        ((s : ℕ) → start ≤ s → next table.now s k ≡ None)
        (λ s. IsFirstLegalFrom table.now k start s × (s < table.now.states)) }
{
    steps_within();
    for s in start..table.states() {
        if table.next(s, k).is_some() {
            return Some(s);
        }
    }
    None
}
