//! Numbers and texts in the columns of a row.

ghost use Rattle.std.specs.Prelude.{◌≡◌, ◌<◌, ◌^◌, [], ◌∷◌, pos, true, IfSome, IsTrue, OnOk};
ghost use Rattle.sqlite_value.specs.Order.{column};
ghost use Rattle.sqlite_value.specs.Value.{owned};
ghost use Rattle.sqlite_value.specs.declared.value.Value.TheVariants.{Null, Int, Text, Blob};
ghost use Rattle.sqlite_trees.specs.Objects.{number_in};
ghost use Rattle.journal.specs.Cells.{cell_value};

use sqlite_value::row::Row;
use sqlite_value::value::ValueRef;
use std::alloc::AllocError;

/// A number in a column, or NULL.
#[derive(Clone, Copy)]
pub enum Cell {
    Null,
    Number(u32),
}

impl Cell {
    /// As it is written.
    pub fn value(self) -> ValueRef<'static>
        ensures { owned result ≡ cell_value self }
    {
        match self {
            Cell::Null => ValueRef::Null,
            Cell::Number(n) => ValueRef::Int(n as i64),
        }
    }

    /// What is in a column, where it is NULL or a number of 32 bits.
    pub fn in_column(row: &Row, at: usize) -> Option<Cell>
        ensures { IfSome result (λ cell. column row.now at ≡ cell_value cell) }
    {
        match row.get(at) {
            ValueRef::Null => Some(Cell::Null),
            ValueRef::Int(n) => match number(n) {
                Some(n) => Some(Cell::Number(n)),
                None => None,
            },
            _ => None,
        }
    }
}

/// A number of 32 bits.
fn number(n: i64) -> Option<u32>
    ensures { IfSome result (λ m. n ≡ pos m) }
{
    u32::try_from(n).ok()
}

/// Whether a column has this number.
pub fn is_number(row: &Row, at: usize, number: u64) -> bool
    requires { number < 2 ^ 62 }
    ensures { result ≡ true → column row.now at ≡ Int (pos number) }
{
    match row.get(at) {
        ValueRef::Int(n) => n == number as i64,
        _ => false,
    }
}

/// Whether the row has this position, and NULL in the position's own column.
pub fn is_at(row: &Row, position: u64) -> bool
    requires { position < 2 ^ 62 }
    ensures at { result ≡ true → column row.now 0 ≡ Int (pos position) }
    ensures own { result ≡ true → column row.now 1 ≡ Null }
{
    is_number(row, 0, position) && matches!(row.get(1), ValueRef::Null)
}

/// The text in a column, where it is one.
pub fn text_in(row: &Row, at: usize) -> Option<&[u8]>
    ensures { IfSome result (λ text. column row.now at ≡ Text text.now) }
{
    match row.get(at) {
        ValueRef::Text(text) => Some(text),
        _ => None,
    }
}

/// Whether a column has this text.
pub fn is_text(row: &Row, at: usize, text: &[u8]) -> bool
    ensures is { IsTrue result → column row.now at ≡ Text text.now }
    ensures told { column row.now at ≡ Text text.now → IsTrue result }
{
    match row.get(at) {
        ValueRef::Text(bytes) => bytes == text,
        _ => false,
    }
}

/// A number of 8 bits.
pub fn byte(n: u32) -> Option<u8>
    ensures { IfSome result (λ m. n ≡ m) }
{
    u8::try_from(n).ok()
}

/// A number of 16 bits.
pub fn two_bytes(n: u32) -> Option<u16>
    ensures { IfSome result (λ m. n ≡ m) }
{
    u16::try_from(n).ok()
}

/// The rowid of a position.
pub fn rowid_of(position: u64) -> i64
    requires { position < 2 ^ 63 }
    ensures { result ≡ pos position }
{
    position as i64
}

/// The key of the row at this position.
pub fn begin_key(row: &mut Row, position: u64) -> Result<(), AllocError>
    requires { position < 2 ^ 63 }
    ensures { OnOk result (row.new ≡ Int (pos position) ∷ []) }
{
    row.clear();
    row.push(ValueRef::Int(rowid_of(position)))
}

/// Begins the row at this position: with NULL in the position's own column, since SQLite keeps it as the
/// rowid.
pub fn begin_row(row: &mut Row, position: u64) -> Result<(), AllocError>
    requires { position < 2 ^ 63 }
    ensures { OnOk result (row.new ≡ Int (pos position) ∷ Null ∷ []) }
{
    begin_key(row, position)?;
    row.push(ValueRef::Null)
}

/// The bytes in a column, where it has some.
pub fn blob_in(row: &Row, at: usize) -> Option<&[u8]>
    ensures { IfSome result (λ bytes. column row.now at ≡ Blob bytes.now) }
{
    match row.get(at) {
        ValueRef::Blob(bytes) => Some(bytes),
        _ => None,
    }
}

/// The number in a column, where it has one that isn't below 0; 0 where it has none.
pub fn long_number(row: &Row, at: usize) -> Option<u64>
    ensures { IfSome result (λ n. number_in (column row.now at) ≡ n) }
{
    match row.get(at) {
        ValueRef::Null => Some(0),
        ValueRef::Int(n) => u64::try_from(n).ok(),
        _ => None,
    }
}
