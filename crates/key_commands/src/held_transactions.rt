//! The transactions that are prepared, each with the objects at which it holds operations.

ghost use Rattle.std.specs.Prelude.{◌≡◌, ◌==◌, ◌-◌, ◌++◌, ◌∷◌, [], ℕ, IfOk, OnOk, length, take, if◌then◌else◌};
ghost use Rattle.std.specs.List.Sorted.{IsStrictlyIncreasing};
ghost use Rattle.serial_order.specs.Operations.{is_among};
ghost use Rattle.event_text.specs.EventText.{events_of_kinds};
ghost use Rattle.key_commands.specs.OpenObjects.{MarkedRowsChange, objects_after, objects_in, open_objects};
ghost use Rattle.key_commands.specs.Prepared.{AreHeldTransactions};

use crate::endings::{is_marked, open_marks};
use journal::Prepared;
use object_trait::EventKind;
use std::alloc::{AllocError, Global};

/// A transaction that is prepared, with the objects at which it holds operations, which ascend, each once.
#[derive(Drop)]
pub(crate) struct HeldTransaction {
    pub(crate) prepared: Prepared,
    pub(crate) objects: Vec<u32>,
}

/// These, each with the objects at which it holds operations after these events.
///
/// # Errors
///
/// Memory was refused.
pub(crate) fn held_transactions(
    alloc: Global,
    happened: &[EventKind],
    prepared: &[Prepared],
) -> Result<Vec<HeldTransaction>, AllocError>
    ensures { IfOk result (λ told. AreHeldTransactions (events_of_kinds happened.now) prepared.now told.items) }
{
    let rows = open_rows(alloc, happened)?;
    let mut told = Vec::new(alloc);
    for one in prepared {
        let objects = each_once(alloc, row_of(&rows, one.number))?;
        told.push(HeldTransaction {
            prepared: *one,
            objects,
        })?;
    }
    Ok(told)
}

/// By the number of each transaction that began in these events, the objects of what survives of it, one for each operation; none
/// where it isn't open after them.
///
/// # Errors
///
/// Memory was refused.
fn open_rows(alloc: Global, happened: &[EventKind]) -> Result<Vec<Vec<u32>>, AllocError>
    ensures { IfOk result (λ rows. (t : ℕ) → objects_in rows.items t ≡ open_objects (events_of_kinds happened.now) t) }
{
    let marks = open_marks(alloc, happened)?;
    let mut rows = vec![in alloc; Vec::new(alloc); marks.len()]?;
    for kind in happened {
        note(&mut rows, &marks, *kind)?;
    }
    Ok(rows)
}

/// Notes an event in the rows of those that are marked, which are open after all events.
///
/// # Errors
///
/// Memory was refused.
fn note(rows: &mut Vec<Vec<u32>>, marks: &[bool], kind: EventKind) -> Result<(), AllocError>
    requires { length rows.old.items ≡ length marks.now }
    ensures objects { OnOk result (MarkedRowsChange marks.now (λ u xs. objects_after u xs kind) rows.old.items rows.new.items) }
    ensures count { OnOk result (length rows.new.items ≡ length rows.old.items) }
{
    // no event ends a transaction that is marked
    match kind {
        EventKind::Op { t, x, .. } => add_object(rows, marks, t, x),
        EventKind::Rollback { t, n } => {
            strike_last(rows, marks, t, n);
            Ok(())
        }
        _ => Ok(()),
    }
}

/// Transaction t, where it is marked, did one operation more, at x.
///
/// # Errors
///
/// Memory was refused.
fn add_object(rows: &mut Vec<Vec<u32>>, marks: &[bool], t: u32, x: u32) -> Result<(), AllocError>
    requires { length rows.old.items ≡ length marks.now }
    ensures objects { OnOk result (MarkedRowsChange marks.now (λ u xs. if t == u then xs ++ x ∷ [] else xs) rows.old.items rows.new.items) }
    ensures count { OnOk result (length rows.new.items ≡ length rows.old.items) }
{
    if is_marked(marks, t) {
        rows[t as usize].push(x)?;
    }
    Ok(())
}

/// The last n operations of transaction t, where it is marked, are struck.
fn strike_last(rows: &mut Vec<Vec<u32>>, marks: &[bool], t: u32, n: u32)
    requires { length rows.old.items ≡ length marks.now }
    ensures objects { MarkedRowsChange marks.now (λ u xs. if t == u then take (length xs - n) xs else xs) rows.old.items rows.new.items }
    ensures count { length rows.new.items ≡ length rows.old.items }
{
    if is_marked(marks, t) {
        let row = &mut rows[t as usize];
        row.truncate(row.len().saturating_sub(n as usize));
    }
}

/// The row of transaction t, empty where it has none.
fn row_of(rows: &[Vec<u32>], t: u32) -> &[u32]
    ensures { result.now ≡ objects_in rows.now t }
{
    match rows.get(t as usize) {
        Some(row) => row,
        None => &[],
    }
}

/// These objects, ascending, each once.
///
/// # Errors
///
/// Memory was refused.
fn each_once(alloc: Global, objects: &[u32]) -> Result<Vec<u32>, AllocError>
    ensures ascend { IfOk result (λ xs. IsStrictlyIncreasing xs.items) }
    ensures same { IfOk result (λ xs. (x : ℕ) → is_among xs.items x ≡ is_among objects.now x) }
{
    let mut once = objects.to_vec(alloc)?;
    once.sort_unstable();
    once.dedup();
    Ok(once)
}
