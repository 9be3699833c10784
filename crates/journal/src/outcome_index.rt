//! Which outcomes aren't in the index of a file yet, by the places of their keys.

ghost use Rattle.std.specs.Prelude.{◌≡◌, ◌<◌, ◌≤◌, ◌^◌, [], true, false, option_map, IfOk, IfSome, OnOk};
ghost use Rattle.std.specs.Option.{option_or};
ghost use Rattle.std.specs.BTreeMap.{get};
ghost use Rattle.std.specs.Ordering.{nat_cmp};
ghost use Rattle.sqlite_trees.specs.Tree.{Trees};
ghost use Rattle.sqlite_trees.specs.View.{IsClean, KeepsSchema};
ghost use Rattle.journal.specs.Numbers.{AreCounted};
ghost use Rattle.journal.specs.OutcomeIndex.{CountsOutcomes, KnowsPlaces, awaiting_from, kept_from};
ghost use Rattle.journal.specs.Outcomes.{staying_from};

use crate::journal_error::JournalError;
use crate::numbers::Numbers;
use crate::outcome_row::{KeptOutcome, KeyedOutcome, numbered_at};
use crate::place_row::{PlaceRow, Staying, led_to, placed_at};
use sqlite_trees::store::{Shape, Store};
use sqlite_value::row::Row;
use std::alloc::Global;
use std::collections::BTreeMap;
use std::mem::swap;

/// How many outcomes go into the index together, so that several pointers fall on one page of a file.
const MANY: usize = 65_536;

/// How many outcomes may await the index: where there are as many, all pointers are put that are due.
const MOST_AWAITING: u64 = 1 << 18;

/// The outcomes that await the index of a file: the number of the last one at each place.
#[derive(Drop)]
pub struct OutcomeIndex {
    /// Those whose pointers are being put, in the order of their places.
    pub due: BTreeMap<u64, u64>,
    /// Those since.
    pub fresh: BTreeMap<u64, u64>,
    /// From which number on they are in `fresh`.
    pub begun: u64,
    /// Whether outcomes were kept that the row of the numbers doesn't count yet.
    pub uncounted: bool,
}

impl OutcomeIndex {
    /// Where none awaits yet, from this number on.
    pub fn new(alloc: Global, begun: u64) -> OutcomeIndex
        ensures due { result.due.entries ≡ [] }
        ensures fresh { result.fresh.entries ≡ [] }
        ensures begun { result.begun ≡ begun }
        ensures counted { result.uncounted ≡ false }
    {
        OutcomeIndex {
            due: BTreeMap::new(alloc),
            fresh: BTreeMap::new(alloc),
            begun,
            uncounted: false,
        }
    }

    /// The number of the last outcome at this place, where its pointer isn't put yet.
    pub fn number_at(&self, place: u64) -> Option<u64>
        ensures { result ≡ option_or (get nat_cmp self.now.fresh place) (get nat_cmp self.now.due place) }
    {
        match self.fresh.get(&place) {
            Some(number) => Some(*number),
            None => self.due.get(&place).copied(),
        }
    }

    /// How many pointers are put with an outcome, where so many outcomes await.
    pub fn pointers_to_put(&self, awaiting: u64) -> usize {
        let due = self.due.len();
        if awaiting >= MOST_AWAITING {
            due
        } else if due > MANY {
            2
        } else {
            1
        }
    }

    /// Whether no pointer is left to put, and so many outcomes came since that theirs are put together, or, where so many
    /// await, too many did.
    pub fn is_put(&self, awaiting: u64) -> bool
        ensures { result ≡ true → self.now.due.entries ≡ [] }
    {
        self.due.is_empty() && (self.fresh.len() >= MANY || awaiting >= MOST_AWAITING)
    }

    /// Begins with the pointers of those since, and with none since, where this is the number of the next outcome.
    pub fn begin_round(&mut self, next: u64)
        requires { self.old.due.entries ≡ [] }
        ensures due { self.new.due ≡ self.old.fresh }
        ensures fresh { self.new.fresh.entries ≡ [] }
        ensures begun { self.new.begun ≡ next }
        ensures counted { self.new.uncounted ≡ self.old.uncounted }
    {
        swap(&mut self.due, &mut self.fresh);
        self.begun = next;
    }
}

/// Reads the outcomes that await the index. Where they are many their pointers are due.
///
/// # Errors
///
/// As `read_fresh`.
pub fn read_index<S: Store>(
    alloc: Global,
    store: &mut S,
    numbers: Numbers,
    row: &mut Row,
) -> Result<OutcomeIndex, JournalError>
    requires counted { AreCounted numbers }
    requires shape { IsClean (S.Store.view store.old) → (S.Store.view store.old).shape 6 ≡ Shape.Table }
    ensures knows { IfOk result (λ index. IsClean (S.Store.view store.new) → KnowsPlaces ((S.Store.view store.old).trees 6) numbers index) }
    ensures counted { IfOk result (λ index. index.uncounted ≡ false) }
    ensures same { OnOk result (IsClean (S.Store.view store.new) → S.Store.view store.new ≡ S.Store.view store.old) }
    ensures clean { IsClean (S.Store.view store.new) → IsClean (S.Store.view store.old) }
    ensures crash { (db : Trees) → S.Store.recovers store.new db → S.Store.recovers store.old db }
{
    let mut index = read_fresh(alloc, store, numbers, row)?;
    if index.is_put(numbers.awaiting) {
        index.begin_round(numbers.next);
    }
    Ok(index)
}

/// Reads the outcomes that await the index, as those since a round began.
///
/// # Errors
///
/// `Foreign` where one is missing or its row is none that a store writes; the store failed, or memory was refused.
fn read_fresh<S: Store>(
    alloc: Global,
    store: &mut S,
    numbers: Numbers,
    row: &mut Row,
) -> Result<OutcomeIndex, JournalError>
    requires counted { AreCounted numbers }
    requires shape { IsClean (S.Store.view store.old) → (S.Store.view store.old).shape 6 ≡ Shape.Table }
    ensures begun { IfOk result (λ index. index.begun ≡ awaiting_from numbers) }
    ensures counted { IfOk result (λ index. index.uncounted ≡ false) }
    ensures knows { IfOk result (λ index. IsClean (S.Store.view store.new) → KnowsPlaces ((S.Store.view store.old).trees 6) numbers index) }
    ensures same { OnOk result (IsClean (S.Store.view store.new) → S.Store.view store.new ≡ S.Store.view store.old) }
    ensures clean { IsClean (S.Store.view store.new) → IsClean (S.Store.view store.old) }
    ensures crash { (db : Trees) → S.Store.recovers store.new db → S.Store.recovers store.old db }
{
    let mut index = OutcomeIndex::new(alloc, numbers.awaiting_from());
    for number in numbers.awaiting_from()..numbers.next {
        match numbered_at(alloc, store, number, row)? {
            Some(found) => {
                index.fresh.insert(found.kept.key.place(), number)?;
            }
            None => return Err(JournalError::Foreign),
        }
    }
    Ok(index)
}

/// What is kept at this place, where something is, also where it is let go.
///
/// # Errors
///
/// As `read_index`.
pub fn kept_at<S: Store>(
    alloc: Global,
    store: &mut S,
    numbers: Numbers,
    index: &OutcomeIndex,
    place: u64,
    row: &mut Row,
) -> Result<Option<KeptOutcome>, JournalError>
    requires low { place < 2 ^ 62 }
    requires shape { IsClean (S.Store.view store.old) → (S.Store.view store.old).shape 6 ≡ Shape.Table }
    requires known { IsClean (S.Store.view store.old) → CountsOutcomes (S.Store.view store.old) numbers index.now }
    ensures found { IfOk result (λ found. IsClean (S.Store.view store.new) → found ≡ kept_from ((S.Store.view store.old).trees 6) (awaiting_from numbers) numbers.awaiting place) }
    ensures sound { OnOk result (IsClean (S.Store.view store.new) → (S.Store.view store.old).is_broken ≡ false) }
    ensures same { OnOk result (IsClean (S.Store.view store.new) → S.Store.view store.new ≡ S.Store.view store.old) }
    ensures clean { IsClean (S.Store.view store.new) → IsClean (S.Store.view store.old) }
    ensures crash { (db : Trees) → S.Store.recovers store.new db → S.Store.recovers store.old db }
{
    if let Some(number) = index.number_at(place) {
        return numbered_at(alloc, store, number, row);
    }
    match placed_at(alloc, store, place, row)? {
        Some(PlaceRow::Whole(kept)) => Ok(Some(kept)),
        Some(PlaceRow::Pointer(number)) => {
            let within = Staying {
                first: numbers.first,
                before: index.begun,
            };
            led_to(alloc, store, place, number, within, row)
        }
        None => Ok(None),
    }
}

/// An outcome that is kept, where it stays: its number isn't before the first that does.
pub fn staying(found: Option<KeptOutcome>, first: u64) -> Option<KeyedOutcome>
    ensures { result ≡ option_map (λ o. o.kept) (staying_from first found) }
{
    match found {
        Some(found) => {
            if found.number < first {
                return None;
            }
            Some(found.kept)
        }
        None => None,
    }
}
