//! Which transactions are open after events.

ghost use Rattle.std.specs.Prelude.{◌≡◌, ◌==◌, ◌&&◌, ◌∷◌, ◌++◌, [], ℕ, IfOk, OnOk, false, not, true};
ghost use Rattle.std.specs.List.{count_by, slice_index_or};
ghost use Rattle.serial_order.specs.History.{is_begin, is_open, summary};
ghost use Rattle.event_text.specs.EventText.{events_of_kinds};
ghost use Rattle.key_commands.specs.Held.{undecided};
ghost use Rattle.key_commands.specs.Endings.{is_end_of};

use journal::Prepared;
use object_trait::EventKind;
use std::alloc::{AllocError, Global};

/// Of these, those whose transactions are open after these events.
///
/// # Errors
///
/// Memory was refused.
pub(crate) fn undecided(
    alloc: Global,
    happened: &[EventKind],
    prepared: &[Prepared],
) -> Result<Vec<Prepared>, AllocError>
    ensures { IfOk result (λ held. held.items ≡ undecided (events_of_kinds happened.now) prepared.now) }
{
    let marks = open_marks(alloc, happened)?;
    let mut held = Vec::new(alloc);
    for one in prepared {
        keep_marked(&mut held, one, &marks)?;
    }
    Ok(held)
}

/// Puts one behind these where its transaction is marked.
///
/// # Errors
///
/// Memory was refused.
fn keep_marked(held: &mut Vec<Prepared>, one: &Prepared, marks: &[bool]) -> Result<(), AllocError>
    ensures marked { OnOk result (slice_index_or marks.now one.now.number false ≡ true → held.new.items ≡ held.old.items ++ one.now ∷ []) }
    ensures other { OnOk result (slice_index_or marks.now one.now.number false ≡ false → held.new.items ≡ held.old.items) }
{
    if is_marked(marks, one.number) {
        held.push(*one)?;
        return Ok(());
    }
    Ok(())
}

/// Of each transaction that began in these events, by its number, whether it is open after them.
///
/// # Errors
///
/// Memory was refused.
pub(crate) fn open_marks(alloc: Global, happened: &[EventKind]) -> Result<Vec<bool>, AllocError>
    ensures { IfOk result (λ marks. (t : ℕ) → slice_index_or marks.items t false ≡ is_open (summary (events_of_kinds happened.now)) t) }
{
    let mut marks = vec![in alloc; true; begun(happened)]?;
    for kind in happened {
        note(&mut marks, *kind);
    }
    Ok(marks)
}

/// How many transactions began.
fn begun(happened: &[EventKind]) -> usize
    ensures { result ≡ count_by is_begin happened.now }
{
    happened.iter().filter(|kind| is_begin(**kind)).count()
}

/// Whether a transaction began.
fn is_begin(kind: EventKind) -> bool
    ensures { result ≡ is_begin kind }
{
    matches!(kind, EventKind::Begin { .. })
}

/// Notes an event: the transaction that it ends is open no more.
fn note(marks: &mut Vec<bool>, kind: EventKind)
    ensures { (u : ℕ) → slice_index_or marks.new.items u false ≡ (slice_index_or marks.old.items u false && not (is_end_of u kind)) }
{
    match kind {
        EventKind::Commit { t } | EventKind::Abort { t } => unmark(marks, t),
        _ => {}
    }
}

/// Transaction t is open no more.
fn unmark(marks: &mut Vec<bool>, t: u32)
    ensures { (u : ℕ) → slice_index_or marks.new.items u false ≡ (slice_index_or marks.old.items u false && not (t == u)) }
{
    let place = t as usize;
    if place < marks.len() {
        marks[place] = false;
    }
}

/// Whether transaction t is open.
pub(crate) fn is_marked(marks: &[bool], t: u32) -> bool
    ensures { result ≡ slice_index_or marks.now t false }
{
    let place = t as usize;
    place < marks.len() && marks[place]
}
