//! What the row at the place of a key says.

ghost use Rattle.std.specs.Prelude.{◌≡◌, ◌<◌, ◌^◌, false, IfOk, IfSome, OnOk};
ghost use Rattle.sqlite_value.specs.Order.{column};
ghost use Rattle.sqlite_value.specs.declared.value.Value.TheVariants.{Null};
ghost use Rattle.sqlite_trees.specs.Tree.{Trees, put_row};
ghost use Rattle.sqlite_trees.specs.View.{IsClean, KeepsSchema, SetsTree};
ghost use Rattle.transaction_key.specs.TransactionKey.{key_place};
ghost use Rattle.journal.specs.OutcomeIndex.{outcome_numbered, placed};
ghost use Rattle.journal.specs.PlaceRow.{place_told, pointer_row};

use crate::cells::{begin_row, long_number, rowid_of};
use crate::contents::OUTCOMES;
use crate::journal_error::JournalError;
use crate::outcome_row::{KEY, KeptOutcome, NUMBER, numbered_at, read_outcome};
use crate::table::MOST_ROWS;
use sqlite_trees::store::{Shape, Store};
use sqlite_value::row::Row;
use sqlite_value::value::ValueRef;
use std::alloc::{AllocError, Global};

/// What the row at the place of a key says.
#[derive(Drop)]
pub enum PlaceRow {
    /// The outcome that is kept there, as programs of the formats 6 to 8 write it.
    Whole(KeptOutcome),
    /// The number of the outcome that is kept there, whose row is elsewhere.
    Pointer(u64),
}

/// Which outcomes a pointer may lead to: those before this number, and a row is there of those that stay.
#[derive(Clone, Copy)]
pub struct Staying {
    /// The number of the first outcome that stays.
    pub first: u64,
    /// From which number on outcomes are known by their places.
    pub before: u64,
}

/// Writes that the outcome with this number is the one at this place. A crash may still take it away.
///
/// # Errors
///
/// `Foreign` where there is no such place or number; the store failed, or memory was refused.
pub fn put_pointer<S: Store>(
    store: &mut S,
    place: u64,
    number: u64,
    row: &mut Row,
) -> Result<(), JournalError>
    requires shape { IsClean (S.Store.view store.old) → (S.Store.view store.old).shape 6 ≡ Shape.Table }
    ensures low { OnOk result (place < 2 ^ 62) }
    ensures ok { OnOk result (IsClean (S.Store.view store.new) → SetsTree (S.Store.view store.old) (S.Store.view store.new) 6 (put_row (pointer_row place number))) }
    ensures clean { IsClean (S.Store.view store.new) → IsClean (S.Store.view store.old) }
    ensures schema { KeepsSchema (S.Store.view store.old) (S.Store.view store.new) }
    ensures crash { (db : Trees) → S.Store.recovers store.new db → S.Store.recovers store.old db }
{
    if place >= MOST_ROWS || number >= MOST_ROWS {
        return Err(JournalError::Foreign);
    }
    fill_pointer(place, number, row)?;
    store.put(OUTCOMES, row)?;
    Ok(())
}

/// Writes the row of a pointer over `row`.
///
/// # Errors
///
/// Memory was refused.
fn fill_pointer(place: u64, number: u64, row: &mut Row) -> Result<(), AllocError>
    requires place { place < 2 ^ 62 }
    requires number { number < 2 ^ 62 }
    ensures { OnOk result (row.new ≡ pointer_row place number) }
{
    begin_row(row, place)?;
    row.push(ValueRef::Null)?;
    row.push(ValueRef::Null)?;
    row.push(ValueRef::Null)?;
    row.push(ValueRef::Int(rowid_of(number)))
}

/// What the row of a pointer says, where a store writes such a row.
fn pointer_in(row: &Row) -> Option<PlaceRow>
    requires { column row.now 2 ≡ Null }
    ensures { IfSome result (λ it. place_told row.now ≡ it) }
{
    let number = long_number(row, NUMBER)?;
    Some(PlaceRow::Pointer(number))
}

/// What a row at a place says, where a store writes such a row.
///
/// # Errors
///
/// Memory was refused.
fn read_place(alloc: Global, row: &Row) -> Result<Option<PlaceRow>, AllocError>
    ensures { IfOk result (λ found. IfSome found (λ it. place_told row.now ≡ it)) }
{
    if let ValueRef::Null = row.get(KEY) {
        return Ok(pointer_in(row));
    }
    match read_outcome(alloc, row)? {
        Some(kept) => Ok(Some(PlaceRow::Whole(kept))),
        None => Ok(None),
    }
}

/// The outcome to which a pointer at this place leads, where it is there still.
///
/// # Errors
///
/// `Foreign` where the outcome isn't one of this place, is gone and stays, or isn't before those that are in memory; as
/// `numbered_at`.
pub fn led_to<S: Store>(
    alloc: Global,
    store: &mut S,
    place: u64,
    number: u64,
    within: Staying,
    row: &mut Row,
) -> Result<Option<KeptOutcome>, JournalError>
    requires shape { IsClean (S.Store.view store.old) → (S.Store.view store.old).shape 6 ≡ Shape.Table }
    ensures found { IfOk result (λ found. IsClean (S.Store.view store.new) → found ≡ outcome_numbered ((S.Store.view store.old).trees 6) number) }
    ensures here { IfOk result (λ found. IfSome found (λ o. key_place o.kept.key ≡ place)) }
    ensures before { OnOk result (number < within.before) }
    ensures sound { OnOk result (IsClean (S.Store.view store.new) → (S.Store.view store.old).is_broken ≡ false) }
    ensures same { OnOk result (IsClean (S.Store.view store.new) → S.Store.view store.new ≡ S.Store.view store.old) }
    ensures clean { IsClean (S.Store.view store.new) → IsClean (S.Store.view store.old) }
    ensures schema { KeepsSchema (S.Store.view store.old) (S.Store.view store.new) }
    ensures crash { (db : Trees) → S.Store.recovers store.new db → S.Store.recovers store.old db }
{
    if number >= within.before {
        return Err(JournalError::Foreign);
    }
    match numbered_at(alloc, store, number, row)? {
        Some(found) => {
            if found.kept.key.place() != place {
                return Err(JournalError::Foreign);
            }
            Ok(Some(found))
        }
        None => {
            if number >= within.first {
                return Err(JournalError::Foreign);
            }
            Ok(None)
        }
    }
}

/// What the row at this place says, where there is one.
///
/// # Errors
///
/// `Foreign` where the row is none that a store writes; the store failed, or memory was refused.
pub fn placed_at<S: Store>(
    alloc: Global,
    store: &mut S,
    place: u64,
    row: &mut Row,
) -> Result<Option<PlaceRow>, JournalError>
    requires low { place < 2 ^ 62 }
    requires shape { IsClean (S.Store.view store.old) → (S.Store.view store.old).shape 6 ≡ Shape.Table }
    ensures found { IfOk result (λ found. IsClean (S.Store.view store.new) → found ≡ placed ((S.Store.view store.old).trees 6) place) }
    ensures sound { OnOk result (IsClean (S.Store.view store.new) → (S.Store.view store.old).is_broken ≡ false) }
    ensures same { OnOk result (IsClean (S.Store.view store.new) → S.Store.view store.new ≡ S.Store.view store.old) }
    ensures clean { IsClean (S.Store.view store.new) → IsClean (S.Store.view store.old) }
    ensures schema { KeepsSchema (S.Store.view store.old) (S.Store.view store.new) }
    ensures crash { (db : Trees) → S.Store.recovers store.new db → S.Store.recovers store.old db }
{
    if !store.get(OUTCOMES, rowid_of(place), row)? {
        return Ok(None);
    }
    match read_place(alloc, row)? {
        Some(found) => Ok(Some(found)),
        None => Err(JournalError::Foreign),
    }
}
