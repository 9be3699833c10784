//! The objects of a store, and the texts of their types, as rows.

ghost use Rattle.std.specs.Prelude.{◌≡◌, ◌∷◌, [], drop, IfSome};
ghost use Rattle.sqlite_value.specs.declared.value.Value.TheVariants.{Text};
ghost use Rattle.journal.specs.ObjectRows.{ToldObject, name_column, object_keyed, object_read_back, object_row, object_told};
ghost use Rattle.journal.specs.TypeRow.{type_keyed, type_read_back, type_row, type_told};

use crate::cells::{Cell, begin_row, is_at, text_in, two_bytes};
use crate::entry::{Entry, FilledEntry};
use object_name::ObjectName;
use sqlite_value::row::Row;
use sqlite_value::value::ValueRef;
use std::alloc::{AllocError, Global};
use std::marker::Model;
use store_text::ObjectLine;
use type_table::Kind;

// the columns after that of the position: of an object
const KIND: usize = 2;

const FILE: usize = 3;

const NAME: usize = 4;
// and of a type
const TEXT: usize = 2;

/// The text of a type file. Contracts see its bytes.
#[derive(Drop)]
pub struct TypeText {
    text: Vec<u8>,
}

impl Model for TypeText {
    ghost use Rattle.std.specs.Prelude.{ℕ, List};

    ghost Value = { List ℕ };

    ghost view = { λ t. t.text.items };
}

impl TypeText {
    /// These bytes.
    pub fn new(text: Vec<u8>) -> TypeText
        ensures { result ≡ text.items }
    {
        TypeText { text }
    }

    /// The bytes.
    pub fn as_bytes(&self) -> &[u8]
        ensures { result.now ≡ self.now }
    {
        &self.text
    }
}

/// A row of its kind's word, the number of its type, and its name, if it has one.
impl Entry for ObjectLine {
    ghost row_at = { object_row };

    ghost told_by = { object_told };

    ghost keyed = { object_keyed };

    ghost read_back = { object_read_back };

    fn read(_alloc: Global, position: u64, row: &Row) -> Result<Option<ObjectLine>, AllocError> {
        if !is_at(row, position) {
            return Ok(None);
        }
        Ok(object_in(row))
    }
}

/// As that row it is written.
impl FilledEntry for ObjectLine {
    fn fill(&self, position: u64, row: &mut Row) -> Result<(), AllocError> {
        begin_row(row, position)?;
        row.push(ValueRef::Text(self.kind.word().as_bytes()))?;
        row.push(ValueRef::Int(self.file as i64))?;
        match &self.name {
            Some(name) => row.push(ValueRef::Text(name.as_bytes())),
            None => Ok(()),
        }
    }

    fn is_same(&self, other: &Self) -> bool {
        self == other
    }
}

/// What the columns of a row say, where they are an object's.
fn object_in(row: &Row) -> Option<ObjectLine>
    ensures { IfSome result (λ object. ToldObject row.now object) }
{
    let kind = Kind::of_word(text_in(row, KIND)?)?;
    let Cell::Number(file) = Cell::in_column(row, FILE)? else {
        return None;
    };
    let file = two_bytes(file)?;
    if row.len() == NAME {
        let name = None;
        return Some(ObjectLine { kind, file, name });
    }
    let name = Some(name_in(row)?);
    Some(ObjectLine { kind, file, name })
}

/// The name in the last column of an object's row, where it is one.
fn name_in(row: &Row) -> Option<ObjectName>
    ensures { IfSome result (λ name. drop name_column row.now ≡ Text name ∷ []) }
{
    if row.len() != NAME + 1 {
        return None;
    }
    ObjectName::from_bytes(text_in(row, NAME)?)
}

/// A row of the text.
impl Entry for TypeText {
    ghost row_at = { type_row };

    ghost told_by = { type_told };

    ghost keyed = { type_keyed };

    ghost read_back = { type_read_back };

    fn read(alloc: Global, position: u64, row: &Row) -> Result<Option<TypeText>, AllocError> {
        if row.len() != 3 || !is_at(row, position) {
            return Ok(None);
        }
        match text_in(row, TEXT) {
            Some(text) => {
                let text = Vec::from_slice(alloc, text)?;
                Ok(Some(TypeText { text }))
            }
            None => Ok(None),
        }
    }
}

/// As that row it is written.
impl FilledEntry for TypeText {
    fn fill(&self, position: u64, row: &mut Row) -> Result<(), AllocError> {
        begin_row(row, position)?;
        row.push(ValueRef::Text(&self.text))
    }

    fn is_same(&self, other: &Self) -> bool {
        self.as_bytes() == other.as_bytes()
    }
}
