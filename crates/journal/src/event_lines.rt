//! The lines of all events of a journal, as its rows have them.

ghost use Rattle.std.specs.Prelude.{◌≡◌, ◌<◌, ◌^◌, ◌++◌, map, IfOk, OnOk};
ghost use Rattle.sqlite_trees.specs.Tree.{Trees};
ghost use Rattle.sqlite_trees.specs.View.{IsClean};
ghost use Rattle.event_text.specs.EventText.{AreShort, event_lines};
ghost use Rattle.journal.specs.EventRow.{event_row, event_told, events_in_row, events_in_rows};
ghost use Rattle.journal.specs.Journal.{Clean, IsJournal, ShowsCommit, durable, may_leave, written};
ghost use Rattle.journal.specs.Rows.{value_rows};
ghost use Rattle.journal.specs.Tables.{OnlyReads};
ghost use Rattle.journal.specs.declared.event_row.EventRow.{EventRow as Said};

use crate::contents::EVENTS;
use crate::event_row::group_in;
use crate::journal::Journal;
use crate::journal_error::JournalError;
use crate::single_event::single_in;
use crate::table::MOST_ROWS;
use event_text::push_event;
use sqlite_trees::store::{Direction, Shape, Store};
use sqlite_value::row::Row;
use std::alloc::Global;

impl<S: Store> Journal<S> {
    /// The lines of all events that it has, oldest first, each with a LF. The lines of a row aren't looked into.
    ///
    /// # Errors
    ///
    /// As `types`.
    pub fn event_lines(&mut self, alloc: Global) -> Result<Vec<u8>, JournalError>
        requires journal { IsJournal S.Store self.old }
        requires shows { ShowsCommit S.Store self.old }
        ensures said { IfOk result (λ lines. Clean S.Store self.new → lines.items ≡ event_lines (written S.Store self.old).events) }
        ensures short { OnOk result (Clean S.Store self.new → AreShort (written S.Store self.old).events) }
        ensures kept { OnOk result (IsJournal S.Store self.new) }
        ensures written { OnOk result (Clean S.Store self.new → written S.Store self.new ≡ written S.Store self.old) }
        ensures durable { OnOk result (Clean S.Store self.new → durable S.Store self.new ≡ durable S.Store self.old) }
        ensures header { self.new.header ≡ self.old.header }
        ensures shows { OnOk result (ShowsCommit S.Store self.new) }
        ensures clean { Clean S.Store self.new → Clean S.Store self.old }
        ensures crash { (db : Trees) → may_leave S.Store self.new db → may_leave S.Store self.old db }
    {
        read_lines(alloc, &mut self.store, &mut self.row)
    }
}

/// The lines of the events in all rows of their table.
///
/// # Errors
///
/// `Foreign` where a row is none of an event at its position, or of lines; the store failed, or memory was refused.
fn read_lines<S: Store>(
    alloc: Global,
    store: &mut S,
    row: &mut Row,
) -> Result<Vec<u8>, JournalError>
    requires shape { IsClean (S.Store.view store.old) → (S.Store.view store.old).shape 0 ≡ Shape.Table }
    requires told { IsClean (S.Store.view store.old) → (S.Store.view store.old).trees 0 ≡ value_rows event_row 0 (map event_told ((S.Store.view store.old).trees 0)) }
    ensures lines { IfOk result (λ lines. IsClean (S.Store.view store.new) → lines.items ≡ event_lines (events_in_rows (map event_told ((S.Store.view store.old).trees 0)))) }
    ensures same { OnOk result (IsClean (S.Store.view store.new) → OnlyReads (S.Store.view store.old) (S.Store.view store.new)) }
    ensures clean { IsClean (S.Store.view store.new) → IsClean (S.Store.view store.old) }
    ensures crash { (db : Trees) → S.Store.recovers store.new db → S.Store.recovers store.old db }
{
    row.clear();
    store.seek(0, EVENTS, row, Direction::Forward)?;
    let mut lines = Vec::new(alloc);
    for position in 0..MOST_ROWS {
        if !store.next(0, row)? {
            return Ok(lines);
        }
        put_lines(&mut lines, position, row)?;
    }
    Err(JournalError::Full)
}

/// Puts the lines of the events in the row at this position behind others.
///
/// # Errors
///
/// `Foreign` where the row is none of an event, or of lines; memory was refused.
fn put_lines(lines: &mut Vec<u8>, position: u64, row: &Row) -> Result<(), JournalError>
    requires { position < 2 ^ 62 }
    ensures { OnOk result ((said : Said) → row.now ≡ event_row position said → lines.new.items ≡ lines.old.items ++ event_lines (events_in_row said)) }
{
    if let Some(text) = group_in(position, row) {
        lines.extend_from_slice(text)?;
        return Ok(());
    }
    let Some(event) = single_in(position, row) else {
        return Err(JournalError::Foreign);
    };
    push_event(lines, event)?;
    Ok(())
}
