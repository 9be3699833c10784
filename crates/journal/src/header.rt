//! What a file says of itself, as a row.

ghost use Rattle.journal.specs.HeaderRow.{ToldHeader, header_keyed, header_read_back, header_row, header_told};
ghost use Rattle.std.specs.Prelude.{IfSome};

use crate::cells::{Cell, begin_row, blob_in, is_at};
use crate::entry::{Entry, FilledEntry};
use sqlite_value::row::Row;
use sqlite_value::value::ValueRef;
use std::alloc::{AllocError, Global};

// the columns after that of the position
const VERSION: usize = 2;

const ID: usize = 3;

const LIFE: usize = 4;

/// The format of what is written.
pub const FORMAT: u32 = 9;

/// The first format that knows names of objects.
pub const NAMING_FORMAT: u32 = 4;

/// The first format that knows prepared transactions.
pub const PREPARING_FORMAT: u32 = 7;

/// The first format whose tables of prepared transactions and of outcomes are as they are now.
pub const KEYED_FORMAT: u32 = 6;

/// What a file says of itself: the version of its format, 16 bytes that were drawn when it was made, and
/// how many lives of stores began over it, which is the number of the present one.
#[derive(Clone, Copy, Debug, PartialEq, Eq)]
pub struct Header {
    pub format: u32,
    pub id: [u8; 16],
    pub life: u32,
}

/// A row of the format, the bytes, and the life.
impl Entry for Header {
    ghost row_at = { header_row };

    ghost told_by = { header_told };

    ghost keyed = { header_keyed };

    ghost read_back = { header_read_back };

    fn read(_alloc: Global, position: u64, row: &Row) -> Result<Option<Header>, AllocError> {
        if row.len() != 5 || !is_at(row, position) {
            return Ok(None);
        }
        Ok(header_in(row))
    }
}

/// As that row it is written.
impl FilledEntry for Header {
    fn fill(&self, position: u64, row: &mut Row) -> Result<(), AllocError> {
        begin_row(row, position)?;
        row.push(ValueRef::Int(self.format as i64))?;
        row.push(ValueRef::Blob(&self.id))?;
        row.push(ValueRef::Int(self.life as i64))
    }

    fn is_same(&self, other: &Self) -> bool {
        self == other
    }
}

/// What the columns of a row say, where they are a header's.
fn header_in(row: &Row) -> Option<Header>
    ensures { IfSome result (λ header. ToldHeader row.now header) }
{
    let id = <[u8; 16]>::try_from(blob_in(row, ID)?).ok()?;
    match (Cell::in_column(row, VERSION)?, Cell::in_column(row, LIFE)?) {
        (Cell::Number(format), Cell::Number(life)) => Some(Header { format, id, life }),
        _ => None,
    }
}
