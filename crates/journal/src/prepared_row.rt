//! A transaction that is prepared, as a row.

ghost use Rattle.std.specs.Prelude.{◌≡◌, IfSome, pos};
ghost use Rattle.sqlite_value.specs.Order.{column};
ghost use Rattle.sqlite_value.specs.declared.value.Value.TheVariants.{Int};
ghost use Rattle.journal.specs.PreparedRow.{ToldPrepared, prepared_keyed, prepared_read_back, prepared_row, prepared_told};

use crate::cells::{Cell, begin_row, is_at};
use crate::entry::{Entry, FilledEntry};
use crate::outcome_row::key_in;
use sqlite_value::row::Row;
use sqlite_value::value::ValueRef;
use std::alloc::{AllocError, Global};
use transaction_key::TransactionKey;

// the columns after that of the key
const LIFE: usize = 3;

const GIVEN: usize = 4;

const NUMBER: usize = 5;

const UNTIL: usize = 6;

/// The name by which a client has its transaction: the life in which it began, and its number there.
#[derive(Clone, Copy, Debug, PartialEq, Eq)]
pub struct GivenName {
    pub life: u32,
    pub number: u32,
}

/// A transaction that is prepared: nothing but a decision ends it.
#[derive(Clone, Copy)]
pub struct Prepared {
    /// Under which it is decided.
    pub key: TransactionKey,
    /// The name that its client has.
    pub given: GivenName,
    /// Its number in the history of the present epoch.
    pub number: u32,
    /// What its client said of how long it waits, at which the store doesn't look.
    pub until: u32,
}

/// A row of the key and four numbers.
impl Entry for Prepared {
    ghost row_at = { prepared_row };

    ghost told_by = { prepared_told };

    ghost keyed = { prepared_keyed };

    ghost read_back = { prepared_read_back };

    fn read(_alloc: Global, position: u64, row: &Row) -> Result<Option<Prepared>, AllocError> {
        if row.len() != UNTIL + 1 || !is_at(row, position) {
            return Ok(None);
        }
        Ok(prepared_in(row))
    }
}

/// As that row it is written.
impl FilledEntry for Prepared {
    fn fill(&self, position: u64, row: &mut Row) -> Result<(), AllocError> {
        begin_row(row, position)?;
        row.push(ValueRef::Text(self.key.as_bytes()))?;
        row.push(ValueRef::Int(self.given.life as i64))?;
        row.push(ValueRef::Int(self.given.number as i64))?;
        row.push(ValueRef::Int(self.number as i64))?;
        row.push(ValueRef::Int(self.until as i64))
    }

    fn is_same(&self, other: &Self) -> bool {
        self.key == other.key
            && self.given == other.given
            && self.number == other.number
            && self.until == other.until
    }
}

/// What the columns of a row say, where they are a prepared transaction's.
fn prepared_in(row: &Row) -> Option<Prepared>
    ensures { IfSome result (λ prepared. ToldPrepared row.now prepared) }
{
    let key = key_in(row)?;
    let given = GivenName {
        life: number_in(row, LIFE)?,
        number: number_in(row, GIVEN)?,
    };
    let number = number_in(row, NUMBER)?;
    let until = number_in(row, UNTIL)?;
    Some(Prepared {
        key,
        given,
        number,
        until,
    })
}

/// The number in a column, where it has one of 32 bits.
fn number_in(row: &Row, at: usize) -> Option<u32>
    ensures { IfSome result (λ n. column row.now at ≡ Int (pos n)) }
{
    match Cell::in_column(row, at)? {
        Cell::Number(n) => Some(n),
        Cell::Null => None,
    }
}
