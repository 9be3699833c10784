//! Rows of outcomes that are let go are freed, some at a time.

ghost use Rattle.std.specs.Prelude.{◌≡◌, ◌<◌, ◌*◌, ◌/◌, ◌%◌, ◌^◌, IfOk, IfSome, OnOk, option_map};
ghost use Rattle.sqlite_trees.specs.Tree.{Trees};
ghost use Rattle.sqlite_trees.specs.View.{IsClean, KeepsSchema};
ghost use Rattle.journal.specs.OutcomeIndex.{placed};
ghost use Rattle.journal.specs.Swept.{Frees, place_number};
ghost use Rattle.journal.specs.Tables.{OnlyReads};

use crate::cells::{begin_key, long_number, rowid_of};
use crate::contents::OUTCOMES;
use crate::journal_error::JournalError;
use crate::outcome_row::{NUMBER, NUMBERED_FROM};
use crate::table::MOST_ROWS;
use sqlite_trees::store::{Direction, Shape, Store};
use sqlite_value::row::Row;

/// From which place on rows are looked at first in a life. Each life looks at few, so lives begin all over the table.
pub fn first_swept(life: u32) -> u64
    ensures place { result ≡ life * 0x9e37_79b9_7f4a_7c15 % 2 ^ 64 / 4 }
    ensures low { result < 2 ^ 62 }
{
    (life as u64).wrapping_mul(0x9e37_79b9_7f4a_7c15) >> 2
}

/// The place of the next row from this one on, where there is one.
///
/// # Errors
///
/// The store failed, or memory was refused.
pub fn next_place<S: Store>(
    store: &mut S,
    from: u64,
    row: &mut Row,
) -> Result<Option<u64>, JournalError>
    requires shape { IsClean (S.Store.view store.old) → (S.Store.view store.old).shape 6 ≡ Shape.Table }
    ensures low { IfOk result (λ found. IfSome found (λ place. place < 2 ^ 62)) }
    ensures same { OnOk result (IsClean (S.Store.view store.new) → OnlyReads (S.Store.view store.old) (S.Store.view store.new)) }
    ensures schema { KeepsSchema (S.Store.view store.old) (S.Store.view store.new) }
    ensures clean { IsClean (S.Store.view store.new) → IsClean (S.Store.view store.old) }
    ensures crash { (db : Trees) → S.Store.recovers store.new db → S.Store.recovers store.old db }
{
    if from >= MOST_ROWS {
        return Ok(None);
    }
    begin_key(row, from)?;
    store.seek(0, OUTCOMES, row, Direction::Forward)?;
    if !store.next(0, row)? {
        return Ok(None);
    }
    Ok(place_in(row))
}

/// The place in a row that has one.
fn place_in(row: &Row) -> Option<u64>
    ensures { IfSome result (λ place. place < 2 ^ 62) }
{
    let place = long_number(row, 0)?;
    if place < MOST_ROWS { Some(place) } else { None }
}

/// The number that the row at this place says, where there is one.
///
/// # Errors
///
/// As `next_place`; `Foreign` where the row is none that a store writes.
fn number_at<S: Store>(
    store: &mut S,
    place: u64,
    row: &mut Row,
) -> Result<Option<u64>, JournalError>
    requires low { place < 2 ^ 62 }
    requires shape { IsClean (S.Store.view store.old) → (S.Store.view store.old).shape 6 ≡ Shape.Table }
    ensures found { IfOk result (λ found. IsClean (S.Store.view store.new) → found ≡ option_map place_number (placed ((S.Store.view store.old).trees 6) place)) }
    ensures same { OnOk result (IsClean (S.Store.view store.new) → S.Store.view store.new ≡ S.Store.view store.old) }
    ensures schema { KeepsSchema (S.Store.view store.old) (S.Store.view store.new) }
    ensures clean { IsClean (S.Store.view store.new) → IsClean (S.Store.view store.old) }
    ensures crash { (db : Trees) → S.Store.recovers store.new db → S.Store.recovers store.old db }
{
    if !store.get(OUTCOMES, rowid_of(place), row)? {
        return Ok(None);
    }
    match long_number(row, NUMBER) {
        Some(number) => Ok(Some(number)),
        None => Err(JournalError::Foreign),
    }
}

/// Frees the row at this place, where its number is below this one. A crash may still bring it back.
///
/// # Errors
///
/// As `number_at`.
pub fn free_place<S: Store>(
    store: &mut S,
    place: u64,
    below: u64,
    row: &mut Row,
) -> Result<(), JournalError>
    requires low { place < 2 ^ 62 }
    requires shape { IsClean (S.Store.view store.old) → (S.Store.view store.old).shape 6 ≡ Shape.Table }
    ensures frees { OnOk result (IsClean (S.Store.view store.new) → Frees below (S.Store.view store.old) (S.Store.view store.new)) }
    ensures schema { KeepsSchema (S.Store.view store.old) (S.Store.view store.new) }
    ensures clean { IsClean (S.Store.view store.new) → IsClean (S.Store.view store.old) }
    ensures crash { (db : Trees) → S.Store.recovers store.new db → S.Store.recovers store.old db }
{
    let Some(number) = number_at(store, place, row)? else {
        return Ok(());
    };
    if number < below {
        store.delete(OUTCOMES, rowid_of(place))?;
    }
    Ok(())
}

/// The number of the first outcome whose row is there, where there is one.
///
/// # Errors
///
/// The store failed, or memory was refused.
pub fn first_numbered<S: Store>(store: &mut S, row: &mut Row) -> Result<Option<u64>, JournalError>
    requires shape { IsClean (S.Store.view store.old) → (S.Store.view store.old).shape 6 ≡ Shape.Table }
    ensures low { IfOk result (λ found. IfSome found (λ number. number < 2 ^ 62)) }
    ensures same { OnOk result (IsClean (S.Store.view store.new) → OnlyReads (S.Store.view store.old) (S.Store.view store.new)) }
    ensures schema { KeepsSchema (S.Store.view store.old) (S.Store.view store.new) }
    ensures clean { IsClean (S.Store.view store.new) → IsClean (S.Store.view store.old) }
    ensures crash { (db : Trees) → S.Store.recovers store.new db → S.Store.recovers store.old db }
{
    begin_key(row, NUMBERED_FROM)?;
    store.seek(0, OUTCOMES, row, Direction::Forward)?;
    if !store.next(0, row)? {
        return Ok(None);
    }
    Ok(number_in(row))
}

/// The number of the outcome whose row this is, where its rowid is one of such a row.
fn number_in(row: &Row) -> Option<u64>
    ensures { IfSome result (λ number. number < 2 ^ 62) }
{
    let number = long_number(row, 0)?.checked_sub(NUMBERED_FROM)?;
    if number < MOST_ROWS {
        Some(number)
    } else {
        None
    }
}

/// Frees the row of the outcome with this number, where it is below that one. A crash may still bring it back.
///
/// # Errors
///
/// The store failed, or memory was refused.
pub fn free_number<S: Store>(store: &mut S, number: u64, below: u64) -> Result<(), JournalError>
    requires low { number < 2 ^ 62 }
    requires shape { IsClean (S.Store.view store.old) → (S.Store.view store.old).shape 6 ≡ Shape.Table }
    ensures frees { OnOk result (IsClean (S.Store.view store.new) → Frees below (S.Store.view store.old) (S.Store.view store.new)) }
    ensures schema { KeepsSchema (S.Store.view store.old) (S.Store.view store.new) }
    ensures clean { IsClean (S.Store.view store.new) → IsClean (S.Store.view store.old) }
    ensures crash { (db : Trees) → S.Store.recovers store.new db → S.Store.recovers store.old db }
{
    if number < below {
        store.delete(OUTCOMES, rowid_of(NUMBERED_FROM + number))?;
    }
    Ok(())
}
