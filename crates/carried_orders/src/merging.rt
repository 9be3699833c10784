//! The first events of an epoch into which all open transactions are carried, in an order that keeps that at each
//! object and that of each transaction: the logs and the places are merged.

ghost use Rattle.std.specs.Prelude.{◌≡◌, ◌≤◌, ◌<◌, ◌++◌, ◌+◌, ◌^◌, [], ◌∷◌, List, Option, map, length, set, replicate, true, false, All, IfOk, IfSome, IfNone, IsTrue, OnOk};
ghost use Rattle.std.specs.List.{AllByRecursion};
ghost use Rattle.object_trait.specs.Orders.{Pairs};
ghost use Rattle.serial_order.specs.Operations.{is_among};
ghost use Rattle.open_transactions.specs.Transactions.{Row, has_row, row, objects_of_row};
ghost use Rattle.carried_runs.specs.Carried.{begins_from, is_carried, number_in};
ghost use Rattle.carried_runs.specs.Objects.{HaveShortLogs};
ghost use Rattle.carried_orders.specs.Merging.{AreAtEnds, AreMergedEvents, IsMergedSoFar, IsNext, IsNoneNext, WaitsInside, again_event, beginner_in};

use object_trait::{Event, EventKind, LogEntry, Recovery};
use open_transactions::OpenTransactions;
use std::alloc::{AllocError, Global};
use type_table::Operation;

/// An entry of a log that is carried.
#[derive(Clone, Copy)]
struct Next {
    /// Its place in the log.
    place: usize,
    /// The number that its transaction gets.
    transaction: usize,
    op: Operation,
}

/// How far the logs and the places were merged.
#[derive(Drop)]
struct Merge {
    // of each log how many entries were looked at
    heads: Vec<usize>,
    // of each transaction how many operations were done again
    counts: Vec<usize>,
    events: Vec<Event>,
}

/// What came of a look at the next operation of a transaction.
#[derive(Clone, Copy)]
enum Looked {
    /// It was done again.
    Done,
    /// There is none.
    Ended,
    /// At its object the one with this new number comes first.
    Waits(usize),
}

/// The first events of the next epoch: these transactions, whose numbers ascend, begin there, each by the worker that began
/// it, and what survives of them is done again.
///
/// The next operation of a transaction may be done again once it is the next one that the log of its object has of these. The
/// one that happened first of those that are left always may, so that an order is found; but only its rules are proved.
///
/// # Errors
///
/// Memory was refused, or no order was found.
pub fn merged_events<R: Recovery>(
    alloc: Global,
    objects: &[R],
    transactions: &OpenTransactions,
    those: &[u32],
) -> Result<Vec<Event>, AllocError>
    requires short { HaveShortLogs (map R.meaning objects.now) }
    requires few_objects { length objects.now ≤ 65536 }
    requires few { length those.now ≤ 65536 }
    requires ascend { Pairs (λ a b. a < b) those.now }
    requires are_open { AllByRecursion (λ t. has_row transactions.now.rows t ≡ true) those.now }
    requires inside { AllByRecursion (λ t. All (λ x. x < length objects.now) (objects_of_row (row transactions.now.rows t))) those.now }
    ensures { IfOk result (λ events. AreMergedEvents (map R.meaning objects.now) transactions.now.rows those.now events.items) }
{
    let mut merge = begun(alloc, objects.len(), transactions, those)?;
    let mut first = 0;
    let mut at = 0;
    for _ in 0..u64::MAX {
        if first >= those.len() {
            return whole(merge, objects, those);
        }
        let looked = look(&mut merge, objects, transactions, those, at)?;
        (first, at) = turn(looked, first, at, those.len());
    }
    Err(AllocError)
}

/// The first transaction that may have more to be done again, and the one that is looked at next, of as many as that.
fn turn(looked: Looked, first: usize, at: usize, count: usize) -> (usize, usize)
    requires first { first < count }
    requires there { at < count }
    requires waits { WaitsInside count looked }
    ensures first { result.0 ≤ count }
    ensures there { result.0 < count → result.1 < count }
{
    match looked {
        Looked::Done => (first, at),
        Looked::Waits(other) => (first, other),
        Looked::Ended => {
            let next = if at == first { first + 1 } else { first };
            (next, next)
        }
    }
}

/// They begin, and nothing was looked at.
fn begun(
    alloc: Global,
    objects: usize,
    transactions: &OpenTransactions,
    those: &[u32],
) -> Result<Merge, AllocError>
    requires few { length those.now ≤ 65536 }
    requires are_open { AllByRecursion (λ t. has_row transactions.now.rows t ≡ true) those.now }
    ensures events { IfOk result (λ merge. merge.events.items ≡ begins_from (beginner_in transactions.now.rows) 0 those.now) }
    ensures heads { IfOk result (λ merge. merge.heads.items ≡ replicate objects 0) }
    ensures counts { IfOk result (λ merge. merge.counts.items ≡ replicate (length those.now) 0) }
{
    let events = begins(alloc, transactions, those)?;
    let heads = vec![in alloc; 0usize; objects]?;
    let counts = vec![in alloc; 0usize; those.len()]?;
    Ok(Merge {
        heads,
        counts,
        events,
    })
}

/// They begin, one after another, each by the worker that began it.
fn begins(
    alloc: Global,
    transactions: &OpenTransactions,
    those: &[u32],
) -> Result<Vec<Event>, AllocError>
    requires few { length those.now ≤ 65536 }
    requires are_open { AllByRecursion (λ t. has_row transactions.now.rows t ≡ true) those.now }
    ensures { IfOk result (λ events. events.items ≡ begins_from (beginner_in transactions.now.rows) 0 those.now) }
{
    let mut events = Vec::with_capacity(alloc, those.len())?;
    for i in 0..those.len() {
        let worker = transactions.worker(those[i]);
        let kind = EventKind::Begin { t: i as u32 };
        events.push_reserved(Event { worker, kind });
    }
    Ok(events)
}

/// Looks at the next operation of the transaction that gets number i, and does it again if its turn has come.
fn look<R: Recovery>(
    merge: &mut Merge,
    objects: &[R],
    transactions: &OpenTransactions,
    those: &[u32],
    i: usize,
) -> Result<Looked, AllocError>
    requires short { HaveShortLogs (map R.meaning objects.now) }
    requires few { length those.now ≤ 65536 }
    requires few_objects { length objects.now ≤ 65536 }
    requires ascend { Pairs (λ a b. a < b) those.now }
    requires are_open { AllByRecursion (λ t. has_row transactions.now.rows t ≡ true) those.now }
    requires inside { AllByRecursion (λ t. All (λ x. x < length objects.now) (objects_of_row (row transactions.now.rows t))) those.now }
    requires there { i < length those.now }
    requires so_far { IsMergedSoFar (map R.meaning objects.now) transactions.now.rows those.now merge.old.heads.items merge.old.counts.items merge.old.events.items }
    ensures so_far { OnOk result (IsMergedSoFar (map R.meaning objects.now) transactions.now.rows those.now merge.new.heads.items merge.new.counts.items merge.new.events.items) }
    ensures waits { IfOk result (WaitsInside (length those.now)) }
{
    let t = those[i];
    let places = transactions.places(t);
    let count = merge.counts[i];
    if count >= places.len() {
        return Ok(Looked::Ended);
    }
    let x = places[count].number() as usize;
    let Some(next) = next_carried(&objects[x], those, merge.heads[x]) else {
        // there is one
        return Err(AllocError);
    };
    if next.transaction != i {
        return Ok(Looked::Waits(next.transaction));
    }
    do_again(merge, transactions.worker(t), i, count + 1, x, &next)?;
    Ok(Looked::Done)
}

/// The next operation of the transaction that gets number i is done again at x, by this worker: so many are now.
fn do_again(
    merge: &mut Merge,
    worker: u8,
    i: usize,
    count: usize,
    x: usize,
    next: &Next,
) -> Result<(), AllocError>
    requires number { i < 65536 }
    requires object { x < 65536 }
    requires place { next.now.place < 2 ^ 32 }
    requires head { x < length merge.old.heads.items }
    requires counted { i < length merge.old.counts.items }
    ensures events { OnOk result (merge.new.events.items ≡ merge.old.events.items ++ again_event worker i x next.now ∷ []) }
    ensures heads { OnOk result (merge.new.heads.items ≡ set merge.old.heads.items x (next.now.place + 1)) }
    ensures counts { OnOk result (merge.new.counts.items ≡ set merge.old.counts.items i count) }
{
    let kind = EventKind::Op {
        t: i as u32,
        x: x as u32,
        k: next.op,
    };
    merge.events.push(Event { worker, kind })?;
    merge.heads[x] = next.place + 1;
    merge.counts[i] = count;
    Ok(())
}

/// The next entry of the object's log, from a place on, that is carried of these.
fn next_carried<R: Recovery>(object: &R, those: &[u32], from: usize) -> Option<Next>
    requires short { length (R.meaning object.now).log < 2 ^ 32 }
    requires ascend { Pairs (λ a b. a < b) those.now }
    ensures next { IfSome result (IsNext those.now (R.meaning object.now).log from) }
    ensures none { IfNone result (IsNoneNext those.now (R.meaning object.now).log from) }
{
    let mut place = from;
    while let Some(entry) = object.entry(place) {
        if let Some(transaction) = carried_number(those, &entry) {
            let op = entry.op;
            return Some(Next {
                place,
                transaction,
                op,
            });
        }
        place += 1;
    }
    None
}

/// The number that the entry's transaction gets, where it is an open one of these.
fn carried_number(those: &[u32], entry: &LogEntry) -> Option<usize>
    requires { Pairs (λ a b. a < b) those.now }
    ensures mine { IfSome result (λ i. (is_among those.now entry.now.by ≡ true) × (entry.now.done ≡ false) × (i ≡ number_in those.now entry.now.by)) }
    ensures other { IfNone result (is_carried those.now entry.now ≡ false) }
{
    if entry.done {
        return None;
    }
    match those.binary_search(&entry.by) {
        Ok(i) => Some(i),
        Err(_) => None,
    }
}

/// The events, where each log was looked at to its end.
///
/// # Errors
///
/// One wasn't.
fn whole<R: Recovery>(merge: Merge, objects: &[R], those: &[u32]) -> Result<Vec<Event>, AllocError>
    requires short { HaveShortLogs (map R.meaning objects.now) }
    requires ascend { Pairs (λ a b. a < b) those.now }
    requires as_many { length merge.heads.items ≡ length objects.now }
    ensures { (rows : List (Option Row)) → IsMergedSoFar (map R.meaning objects.now) rows those.now merge.heads.items merge.counts.items merge.events.items → IfOk result (λ events. AreMergedEvents (map R.meaning objects.now) rows those.now events.items) }
{
    if !are_at_ends(&merge.heads, objects, those) {
        return Err(AllocError);
    }
    let Merge {
        heads: _,
        counts: _,
        events,
    } = merge;
    Ok(events)
}

/// Whether no log has more that is carried of these.
fn are_at_ends<R: Recovery>(heads: &[usize], objects: &[R], those: &[u32]) -> bool
    requires short { HaveShortLogs (map R.meaning objects.now) }
    requires ascend { Pairs (λ a b. a < b) those.now }
    requires as_many { length heads.now ≡ length objects.now }
    ensures { IsTrue result → AreAtEnds (map R.meaning objects.now) those.now heads.now }
{
    for x in 0..objects.len() {
        if let Some(_next) = next_carried(&objects[x], those, heads[x]) {
            return false;
        }
    }
    true
}
