//! Rows of the table of events.

ghost use Rattle.std.specs.Prelude.{◌≡◌, ◌<◌, ◌^◌, ◌++◌, drop, length, pos, take, true, IfOk, IfSome, OnOk};
ghost use Rattle.sqlite_value.specs.Order.{column};
ghost use Rattle.sqlite_value.specs.declared.value.Value.TheVariants.{Int, Text};
ghost use Rattle.sqlite_trees.specs.Tree.{Trees, put_row};
ghost use Rattle.sqlite_trees.specs.View.{IsClean, KeepsSchema, SetsTree};
ghost use Rattle.event_text.specs.EventText.{AreShort};
ghost use Rattle.journal.specs.EventRow.{event_keyed, event_read_back, event_row, event_told, events_in_row, events_in_rows, lines_column, row_starts};
ghost use Rattle.journal.specs.declared.event_row.EventRow.TheVariants.{Lines as Written};

use crate::cells::{begin_row, is_at, text_in};
use crate::contents::EVENTS;
use crate::entry::Entry;
use crate::journal_error::JournalError;
use crate::single_event::single_in;
use event_text::{EventGroup, events_in, numbers_are_short};
use object_trait::EventKind;
use sqlite_trees::store::{Shape, Store};
use sqlite_value::row::Row;
use sqlite_value::value::ValueRef;
use std::alloc::{AllocError, Global};
use std::marker::Model;

// the columns after that of the position: the lines, and how many they are
const LINES: usize = 2;

const COUNT: usize = 3;

/// What a row of the table of events says: events that were written together, or one, as the formats 1 to 4
/// have it.
#[derive(Drop)]
pub enum EventRow {
    Lines(Events),
    Single(EventKind),
}

/// Events in order. Contracts see them as a list.
#[derive(Drop)]
pub struct Events {
    events: Vec<EventKind>,
}

impl Model for Events {
    ghost use Rattle.std.specs.Prelude.{List};
    ghost use Rattle.object_trait.specs.declared.event.EventKind.{EventKind};
    ghost use Rattle.event_text.specs.EventText.{AreShort};

    ghost Value = { List EventKind };

    ghost view = { λ e. e.events.items };

    ghost invariant = { λ e. AreShort e.events.items };
}

impl EventRow {
    /// Puts the events of the row behind others.
    fn put_behind(&self, events: &mut Vec<EventKind>) -> Result<(), AllocError>
        ensures behind { OnOk result (events.new.items ≡ events.old.items ++ events_in_row self.now) }
        ensures short { AreShort (events_in_row self.now) }
    {
        match self {
            EventRow::Lines(more) => events.extend_from_slice(&more.events),
            EventRow::Single(event) => {
                numbers_are_short(*event);
                events.push(*event)?;
                Ok(())
            }
        }
    }

    /// How many events the row says.
    fn count(&self) -> usize
        ensures { result ≡ length (events_in_row self.now) }
    {
        match self {
            EventRow::Lines(more) => more.events.len(),
            EventRow::Single(_) => 1,
        }
    }
}

/// A row of lines, or one of seven columns.
impl Entry for EventRow {
    ghost row_at = { event_row };

    ghost told_by = { event_told };

    ghost keyed = { event_keyed };

    ghost read_back = { event_read_back };

    fn read(alloc: Global, position: u64, row: &Row) -> Result<Option<EventRow>, AllocError> {
        if row.len() == COUNT + 1 {
            return lines_in(alloc, position, row);
        }
        match single_in(position, row) {
            Some(event) => Ok(Some(EventRow::Single(event))),
            None => Ok(None),
        }
    }
}

/// What a row of four columns says, where it is one of lines.
fn lines_in(alloc: Global, position: u64, row: &Row) -> Result<Option<EventRow>, AllocError>
    requires at { position < 2 ^ 62 }
    requires four { length row.now ≡ 4 }
    ensures { IfOk result (λ found. IfSome found (λ entry. row.now ≡ event_row position entry)) }
{
    if !is_at(row, position) {
        return Ok(None);
    }
    let Some(text) = text_in(row, LINES) else {
        return Ok(None);
    };
    match events_in(alloc, text)? {
        Some(events) if has_count(row, events.len()) => {
            Ok(Some(EventRow::Lines(Events { events })))
        }
        _ => Ok(None),
    }
}

/// Whether the row says that it has so many events.
fn has_count(row: &Row, count: usize) -> bool
    ensures { result ≡ true → column row.now 3 ≡ Int (pos count) }
{
    match row.get(COUNT) {
        ValueRef::Int(n) => match u64::try_from(n) {
            Ok(n) => n == count as u64,
            Err(_) => false,
        },
        _ => false,
    }
}

/// The lines in the row at this position, where it is one of lines. They aren't looked into.
pub fn group_in(position: u64, row: &Row) -> Option<&[u8]>
    requires { position < 2 ^ 62 }
    ensures four { IfSome result (λ text. length row.now ≡ 4) }
    ensures lines { IfSome result (λ text. column row.now lines_column ≡ Text text.now) }
{
    if row.len() == COUNT + 1 && is_at(row, position) {
        text_in(row, LINES)
    } else {
        None
    }
}

/// Writes so many events as the row at this position. A crash may still take it away.
///
/// # Errors
///
/// `Full` where they are too many for a number of a row; the store failed, or memory was refused.
pub fn put_group<S: Store>(
    store: &mut S,
    position: u64,
    events: &EventGroup,
    count: u64,
    row: &mut Row,
) -> Result<(), JournalError>
    requires few { position < 2 ^ 62 }
    requires count { IsClean (S.Store.view store.old) → count ≡ length events.now }
    requires shape { IsClean (S.Store.view store.old) → (S.Store.view store.old).shape 0 ≡ Shape.Table }
    ensures ok { OnOk result (IsClean (S.Store.view store.new) → SetsTree (S.Store.view store.old) (S.Store.view store.new) 0 (put_row (event_row position (Written events.now)))) }
    ensures clean { IsClean (S.Store.view store.new) → IsClean (S.Store.view store.old) }
    ensures schema { KeepsSchema (S.Store.view store.old) (S.Store.view store.new) }
    ensures crash { (db : Trees) → S.Store.recovers store.new db → S.Store.recovers store.old db }
    ensures short { OnOk result (AreShort events.now) }
{
    let Ok(count) = i64::try_from(count) else {
        return Err(JournalError::Full);
    };
    begin_row(row, position)?;
    row.push(ValueRef::Text(events.as_bytes()))?;
    row.push(ValueRef::Int(count))?;
    store.put(EVENTS, row)?;
    Ok(())
}

/// The events of rows, in order.
pub fn events_of(alloc: Global, rows: &[EventRow]) -> Result<Vec<EventKind>, AllocError>
    ensures events { IfOk result (λ events. events.items ≡ events_in_rows rows.now) }
    ensures short { IfOk result (λ events. AreShort events.items) }
{
    let mut events = Vec::new(alloc);
    for row in rows {
        row.put_behind(&mut events)?;
    }
    Ok(events)
}

/// At which place among all events those of each row begin.
pub fn starts_of(alloc: Global, rows: &[EventRow]) -> Result<Vec<u64>, JournalError>
    ensures { IfOk result (λ starts. starts.items ≡ row_starts 0 rows.now) }
{
    let mut starts = Vec::new(alloc);
    let mut start: u64 = 0;
    for row in rows {
        starts.push(start)?;
        let Some(next) = start.checked_add(row.count() as u64) else {
            return Err(JournalError::Full);
        };
        start = next;
    }
    Ok(starts)
}

/// Of the events of rows those from this place on, and at most this many.
pub fn some_of(
    alloc: Global,
    rows: &[EventRow],
    from: u64,
    count: usize,
) -> Result<Vec<EventKind>, AllocError>
    ensures { IfOk result (λ events. events.items ≡ take count (drop from (events_in_rows rows.now))) }
{
    let all = events_of(alloc, rows)?;
    Vec::from_slice(alloc, first(behind(&all, from), count))
}

/// The events behind the first ones, of which there are so many.
fn behind(events: &[EventKind], from: u64) -> &[EventKind]
    ensures { result.now ≡ drop from events.now }
{
    if from < events.len() as u64 {
        &events[from as usize..]
    } else {
        &events[events.len()..]
    }
}

/// The first events, at most so many.
fn first(events: &[EventKind], count: usize) -> &[EventKind]
    ensures { result.now ≡ take count events.now }
{
    if count < events.len() {
        &events[..count]
    } else {
        events
    }
}
