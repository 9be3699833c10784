//! The state at which an object began, as a row.

ghost use Rattle.journal.specs.StateRow.{state_keyed, state_read_back, state_row, state_told};

use crate::cells::{Cell, begin_row, is_at};
use crate::entry::{Entry, FilledEntry};
use sqlite_value::row::Row;
use sqlite_value::value::ValueRef;
use std::alloc::{AllocError, Global};

// the column after that of the position
const STATE: usize = 2;

/// The state of an object where the history of the file begins.
#[derive(Clone, Copy, Debug, PartialEq, Eq)]
pub struct FirstState {
    pub state: u32,
}

/// A row of the state.
impl Entry for FirstState {
    ghost row_at = { state_row };

    ghost told_by = { state_told };

    ghost keyed = { state_keyed };

    ghost read_back = { state_read_back };

    fn read(_alloc: Global, position: u64, row: &Row) -> Result<Option<FirstState>, AllocError> {
        if row.len() != 3 || !is_at(row, position) {
            return Ok(None);
        }
        match Cell::in_column(row, STATE) {
            Some(Cell::Number(state)) => Ok(Some(FirstState { state })),
            _ => Ok(None),
        }
    }
}

/// As that row it is written.
impl FilledEntry for FirstState {
    fn fill(&self, position: u64, row: &mut Row) -> Result<(), AllocError> {
        begin_row(row, position)?;
        row.push(ValueRef::Int(self.state as i64))
    }

    fn is_same(&self, other: &Self) -> bool {
        self == other
    }
}
