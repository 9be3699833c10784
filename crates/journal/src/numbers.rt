//! How many outcomes were ever kept in a file, and which of them stay, as a row.

ghost use Rattle.std.specs.Prelude.{◌≡◌, ◌≤◌, IfOk, IfSome, IsTrue, OnOk, false};
ghost use Rattle.sqlite_trees.specs.Tree.{Trees, put_row};
ghost use Rattle.sqlite_trees.specs.View.{IsClean, KeepsSchema, SetsTree};
ghost use Rattle.journal.specs.Numbers.{AreCounted, numbers_in, numbers_row, numbers_told};
ghost use Rattle.journal.specs.OutcomeIndex.{awaiting_from};

use crate::cells::{is_text, long_number, rowid_of};
use crate::contents::OUTCOMES;
use crate::journal_error::JournalError;
use crate::table::MOST_ROWS;
use sqlite_trees::store::{Shape, Store};
use sqlite_value::row::Row;
use sqlite_value::value::ValueRef;
use std::alloc::AllocError;

// the columns after that of the position
const HOW: usize = 3;

const NEXT: usize = 5;

const FIRST: usize = 6;

const LEAST: usize = 7;

const AWAITING: usize = 8;

/// The position of the row, at which no key has its place.
const NOWHERE: i64 = -1;

/// The numbers of outcomes of a file, each of them below 2^62.
#[derive(Clone, Copy)]
pub struct Numbers {
    /// That of the next outcome.
    pub next: u64,
    /// Of the first that stays.
    pub first: u64,
    /// How many of the last stay at least.
    pub least: u64,
    /// How many of the last aren't in the index of places yet.
    pub awaiting: u64,
}

impl Numbers {
    /// From which number on outcomes await the index.
    pub fn awaiting_from(self) -> u64
        ensures { result ≡ awaiting_from self }
    {
        self.next.saturating_sub(self.awaiting)
    }

    /// Below which number no outcome stays or awaits.
    pub fn freed_below(self) -> u64
        ensures first { result ≤ self.first }
        ensures awaiting { result ≤ awaiting_from self }
    {
        self.first.min(self.awaiting_from())
    }
}

/// What a file says where it has no such row.
pub const FIRST_NUMBERS: Numbers = Numbers {
    next: 1,
    first: 0,
    least: 1_000_000,
    awaiting: 0,
};

/// Writes these numbers. A crash may still take them away.
///
/// # Errors
///
/// The store failed, or memory was refused.
pub fn put_numbers<S: Store>(
    store: &mut S,
    numbers: Numbers,
    row: &mut Row,
) -> Result<(), JournalError>
    requires counted { AreCounted numbers }
    requires shape { IsClean (S.Store.view store.old) → (S.Store.view store.old).shape 6 ≡ Shape.Table }
    ensures ok { OnOk result (IsClean (S.Store.view store.new) → SetsTree (S.Store.view store.old) (S.Store.view store.new) 6 (put_row (numbers_row numbers))) }
    ensures clean { IsClean (S.Store.view store.new) → IsClean (S.Store.view store.old) }
    ensures schema { KeepsSchema (S.Store.view store.old) (S.Store.view store.new) }
    ensures crash { (db : Trees) → S.Store.recovers store.new db → S.Store.recovers store.old db }
{
    fill_numbers(numbers, row)?;
    store.put(OUTCOMES, row)?;
    Ok(())
}

/// Writes the row of these numbers over `row`.
///
/// # Errors
///
/// Memory was refused.
fn fill_numbers(numbers: Numbers, row: &mut Row) -> Result<(), AllocError>
    requires { AreCounted numbers }
    ensures { OnOk result (row.new ≡ numbers_row numbers) }
{
    row.clear();
    row.push(ValueRef::Int(NOWHERE))?;
    row.push(ValueRef::Null)?;
    row.push(ValueRef::Text(b""))?;
    row.push(ValueRef::Text(b"numbers"))?;
    row.push(ValueRef::Text(b""))?;
    row.push(ValueRef::Int(rowid_of(numbers.next)))?;
    row.push(ValueRef::Int(rowid_of(numbers.first)))?;
    row.push(ValueRef::Int(rowid_of(numbers.least)))?;
    row.push(ValueRef::Int(rowid_of(numbers.awaiting)))
}

/// What a file says of its outcomes' numbers.
///
/// # Errors
///
/// `Foreign` where the row is none that a store writes; the store failed, or memory was refused.
pub fn read_numbers<S: Store>(store: &mut S, row: &mut Row) -> Result<Numbers, JournalError>
    requires shape { IsClean (S.Store.view store.old) → (S.Store.view store.old).shape 6 ≡ Shape.Table }
    ensures found { IfOk result (λ found. IsClean (S.Store.view store.new) → found ≡ numbers_in ((S.Store.view store.old).trees 6)) }
    ensures counted { IfOk result (λ found. AreCounted found) }
    ensures sound { OnOk result (IsClean (S.Store.view store.new) → (S.Store.view store.old).is_broken ≡ false) }
    ensures same { OnOk result (IsClean (S.Store.view store.new) → S.Store.view store.new ≡ S.Store.view store.old) }
    ensures schema { KeepsSchema (S.Store.view store.old) (S.Store.view store.new) }
    ensures clean { IsClean (S.Store.view store.new) → IsClean (S.Store.view store.old) }
    ensures crash { (db : Trees) → S.Store.recovers store.new db → S.Store.recovers store.old db }
{
    if !store.get(OUTCOMES, NOWHERE, row)? {
        return Ok(FIRST_NUMBERS);
    }
    match numbers_of(row) {
        Some(numbers) => Ok(numbers),
        None => Err(JournalError::Foreign),
    }
}

/// What a row says of them, where a store writes such a row.
fn numbers_of(row: &Row) -> Option<Numbers>
    ensures told { IfSome result (λ n. numbers_told row.now ≡ n) }
    ensures counted { IfSome result (λ n. AreCounted n) }
{
    if !is_text(row, HOW, b"numbers") {
        return None;
    }
    let numbers = Numbers {
        next: long_number(row, NEXT)?,
        first: long_number(row, FIRST)?,
        least: long_number(row, LEAST)?,
        awaiting: long_number(row, AWAITING)?,
    };
    if are_counted(numbers) {
        Some(numbers)
    } else {
        None
    }
}

/// Whether a store writes such numbers: none stays or awaits that wasn't kept.
pub fn are_counted(numbers: Numbers) -> bool
    ensures { IsTrue result → AreCounted numbers }
{
    numbers.next > 0
        && numbers.first <= numbers.next
        && numbers.awaiting <= numbers.next
        && numbers.next < MOST_ROWS
        && numbers.least < MOST_ROWS
}
