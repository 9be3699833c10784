//! An event as a row of its own, as the formats 1 to 4 have it.

ghost use Rattle.std.specs.Prelude.{◌≡◌, ◌<◌, ◌^◌, IfSome};
ghost use Rattle.journal.specs.SingleColumns.{ToldColumns, columns_of};
ghost use Rattle.journal.specs.SingleEvent.{event_columns, single_row};

use crate::cells::{Cell, byte, is_at, text_in};
use event_text::EventWord;
use object_trait::EventKind;
use sqlite_value::row::Row;
use type_table::Operation;

// the columns after that of the position
const KIND: usize = 2;

const TRANSACTION: usize = 3;

const OBJECT: usize = 4;

const OPERATION: usize = 5;

const NUMBER: usize = 6;

/// What the columns of an event's row say, but for its position.
#[derive(Clone, Copy)]
struct EventColumns {
    kind: EventWord,
    t: Cell,
    x: Cell,
    k: Cell,
    n: Cell,
}

/// The event that has a row of its own, where the row at this position is one's.
pub fn single_in(position: u64, row: &Row) -> Option<EventKind>
    requires { position < 2 ^ 62 }
    ensures { IfSome result (λ event. row.now ≡ single_row position event) }
{
    if row.len() != 7 || !is_at(row, position) {
        return None;
    }
    event_of(columns_in(row)?)
}

/// The event that has these columns, where one has.
fn event_of(columns: EventColumns) -> Option<EventKind>
    ensures { IfSome result (λ event. columns_of columns ≡ event_columns event) }
{
    let EventColumns { kind, t, x, k, n } = columns;
    let Cell::Number(t) = t else {
        return None;
    };
    match (x, k) {
        (Cell::Null, Cell::Null) => alone_of(kind, t, n),
        (Cell::Number(x), Cell::Number(k)) => call_of(kind, t, x, byte(k)?, n),
        _ => None,
    }
}

/// The event at no object that has these columns, where one has.
fn alone_of(kind: EventWord, t: u32, n: Cell) -> Option<EventKind>
    ensures { IfSome result (λ event. columns_of (record { kind = kind; t = Cell.Number t; x = Cell.Null; k = Cell.Null; n = n }) ≡ event_columns event) }
{
    match (kind, n) {
        (EventWord::Begin, Cell::Null) => Some(EventKind::Begin { t }),
        (EventWord::Commit, Cell::Null) => Some(EventKind::Commit { t }),
        (EventWord::Abort, Cell::Null) => Some(EventKind::Abort { t }),
        (EventWord::Rollback, Cell::Number(n)) => Some(EventKind::Rollback { t, n }),
        _ => None,
    }
}

/// The event of a call that has these columns, where one has.
fn call_of(kind: EventWord, t: u32, x: u32, k: u8, n: Cell) -> Option<EventKind>
    ensures { IfSome result (λ event. columns_of (record { kind = kind; t = Cell.Number t; x = Cell.Number x; k = Cell.Number k; n = n }) ≡ event_columns event) }
{
    match (kind, n) {
        (EventWord::Op, Cell::Null) => {
            let k = Operation::listed(k);
            Some(EventKind::Op { t, x, k })
        }
        (EventWord::Op, Cell::Number(n)) => {
            let k = Operation::with(k, n);
            Some(EventKind::Op { t, x, k })
        }
        (EventWord::None, Cell::Null) => Some(EventKind::None { t, x, c: k }),
        (EventWord::Busy, Cell::Number(u)) => Some(EventKind::Busy { c: k, t, x, u }),
        _ => None,
    }
}

/// What the columns of a row say, where they may be an event's.
fn columns_in(row: &Row) -> Option<EventColumns>
    ensures { IfSome result (λ columns. ToldColumns row.now columns) }
{
    let kind = EventWord::of_text(text_in(row, KIND)?)?;
    Some(EventColumns {
        kind,
        t: Cell::in_column(row, TRANSACTION)?,
        x: Cell::in_column(row, OBJECT)?,
        k: Cell::in_column(row, OPERATION)?,
        n: Cell::in_column(row, NUMBER)?,
    })
}
