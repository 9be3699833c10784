//! What declares a type.

ghost use Rattle.std.specs.Prelude.{◌≡◌, ◌↔◌, ◌+◌, ◌-◌, ◌<◌, ◌≤◌, true, Some, length, slice_get, is_some, IfOk, IfSome, IsSome};
ghost use Rattle.type_table.specs.Limits.{most_ops};
ghost use Rattle.type_table.specs.Table.{next, has_op, HasPlace, first_op};
ghost use Rattle.type_table.specs.declared.kind.Kind.{Kind as AnyKind};
ghost use Rattle.declared_types.specs.TypeFile.{file_at};
ghost use Rattle.declared_types.specs.Declarations.{file_of, table_of, rows_of, declared_at, IsDeclaredFor, IsByTable};

use crate::laws::parts_tell_the_file;
use crate::type_file::TypeFile;
use number_types::NumberFile;
use std::alloc::{AllocError, Global};
use std::marker::Model;
use type_table::{Name, Op, Operation, TypeTable};

/// How a type is declared: by a table, with conflict tables, or as a number that has no table.
#[derive(Drop)]
pub enum Declaration {
    Table(TypeFile),
    Number(NumberFile),
}

/// A type as it was declared. Contracts see its declaration.
#[derive(Drop)]
pub struct DeclaredType {
    declaration: Declaration,
}

impl Model for DeclaredType {
    ghost use Rattle.declared_types.specs.declared.declared_type.Declaration.{Declaration};

    ghost Value = { Declaration };

    ghost view = { λ a. a.declaration };
}

impl DeclaredType {
    /// A type of a file.
    pub fn table(file: TypeFile) -> DeclaredType
        ensures { result ≡ Declaration.Table file }
    {
        DeclaredType {
            declaration: Declaration::Table(file),
        }
    }

    /// A number.
    pub fn number(number: NumberFile) -> DeclaredType
        ensures { result ≡ Declaration.Number number }
    {
        DeclaredType {
            declaration: Declaration::Number(number),
        }
    }

    /// What declares it.
    pub fn declaration(&self) -> &Declaration
        ensures { result.now ≡ self.now }
    {
        &self.declaration
    }

    /// The file, where it is declared by one, which each kind but escrow asks for.
    pub fn file(&self) -> Option<&TypeFile>
        ensures exact { IfSome result (λ file. file.now ≡ file_of self.now) }
        ensures there { (kind : AnyKind) → IsByTable kind → IsDeclaredFor kind self.now → IsSome result }
    {
        match &self.declaration {
            Declaration::Table(file) => Some(file),
            Declaration::Number(_) => None,
        }
    }

    /// The type's name.
    pub fn name(&self) -> Name
        ensures { result ≡ (table_of self.now).name }
    {
        match &self.declaration {
            Declaration::Table(file) => file.table.name(),
            Declaration::Number(number) => number.name(),
        }
    }

    /// The names of the operations that it lists, at most 64, by their places. Where a call takes any amount, its name
    /// has `any` in place of it, and where `value` is answered, `n`.
    pub fn rows(&self) -> &[Op]
        ensures exact { result.now ≡ rows_of self.now }
        ensures few { length result.now ≤ most_ops }
    {
        match &self.declaration {
            Declaration::Table(file) => ops_of(&file.table),
            Declaration::Number(number) => number.rows(),
        }
    }

    /// Whether some operation has this place.
    pub fn has_place(&self, place: u8) -> bool
        ensures { (result ≡ true) ↔ HasPlace (table_of self.now) place }
    {
        match &self.declaration {
            Declaration::Table(file) => is_place(&file.table, place),
            Declaration::Number(number) => number.has_place(place),
        }
    }

    /// The call and the reply of operation k, where the type has it.
    pub fn op(&self, k: Operation) -> Option<Op>
        ensures there { is_some result ≡ has_op (table_of self.now) k }
        ensures exact { IfSome result (λ op. slice_get (table_of self.now).ops k ≡ Some op) }
    {
        match &self.declaration {
            Declaration::Table(file) => op_of(&file.table, k),
            Declaration::Number(number) => number.op(k),
        }
    }

    /// Whether operation k is one of the type's.
    pub fn has_op(&self, k: Operation) -> bool
        ensures { result ≡ has_op (table_of self.now) k }
    {
        match &self.declaration {
            Declaration::Table(file) => op_of(&file.table, k).is_some(),
            Declaration::Number(number) => number.has_op(k),
        }
    }

    /// The first operation of the call with this name, where there is such a call.
    pub fn first_op(&self, name: &[u8]) -> Option<Operation>
        ensures { result ≡ first_op (table_of self.now) name.now }
    {
        match &self.declaration {
            Declaration::Table(file) => first_op_of(&file.table, name),
            Declaration::Number(number) => number.first_op(name),
        }
    }

    /// The next state of state s under operation k, where k is legal in s.
    pub fn next(&self, s: u32, k: Operation) -> Option<u32>
        requires state { s < (table_of self.now).states }
        requires operation { k < length (table_of self.now).ops }
        ensures exact { result ≡ next (table_of self.now) s k }
        ensures inside { IfSome result (λ t. t < (table_of self.now).states) }
    {
        match &self.declaration {
            Declaration::Table(file) => next_of(&file.table, s, k),
            Declaration::Number(number) => number.next(s, k),
        }
    }

    /// The state at which it begins.
    pub fn initial(&self) -> u32
        ensures exact { result ≡ (table_of self.now).initial }
        ensures inside { result < (table_of self.now).states }
    {
        match &self.declaration {
            Declaration::Table(file) => u32::from(file.table.initial()),
            Declaration::Number(number) => initial_of(number),
        }
    }

    /// The greatest of its states, which are the numbers from 0.
    pub fn greatest(&self) -> u32
        ensures exact { result ≡ (table_of self.now).states - 1 }
        ensures below { result < (table_of self.now).states }
    {
        match &self.declaration {
            Declaration::Table(file) => u32::from(file.table.states() - 1),
            Declaration::Number(number) => number.max(),
        }
    }

    /// An equal one.
    pub fn copy(&self, alloc: Global) -> Result<DeclaredType, AllocError>
        ensures { IfOk result (λ copied. copied ≡ self.now) }
    {
        match &self.declaration {
            Declaration::Table(file) => Ok(DeclaredType::table(file.copy(alloc)?)),
            Declaration::Number(number) => Ok(DeclaredType::number(number.copy(alloc)?)),
        }
    }

    /// It begins at this state, which is one of its states, from now on.
    pub fn begin_at(&mut self, state: u32)
        requires { state < (table_of self.old).states }
        ensures { self.new ≡ declared_at self.old state }
    {
        match &mut self.declaration {
            Declaration::Table(file) => begin_file_at(file, state),
            Declaration::Number(number) => number.begin_at(state),
        }
    }

    /// Whether it is the other type, beginning at this state.
    pub fn is_at(&self, other: &DeclaredType, state: u32) -> bool
        ensures { result ≡ true → file_of self.now ≡ file_at (file_of other.now) state }
    {
        match (&self.declaration, &other.declaration) {
            (Declaration::Table(file), Declaration::Table(other)) => is_file_at(file, other, state),
            (Declaration::Number(number), Declaration::Number(other)) => number.is_at(other, state),
            _ => false,
        }
    }
}

/// The operations of a table, and how many there may be.
fn ops_of(table: &TypeTable) -> &[Op]
    ensures exact { result.now ≡ table.now.ops }
    ensures few { length result.now ≤ most_ops }
{
    // (read for its clause on what is known of a table)
    let _states = table.states();
    table.ops()
}

/// The value at which a number begins.
fn initial_of(number: &NumberFile) -> u32
    ensures exact { result ≡ number.now.initial }
    ensures inside { result < number.now.max + 1 }
{
    // (read for its clause on what is known of a number)
    let _calls = number.calls();
    number.initial()
}

/// The call and the reply of operation k of a table.
fn op_of(table: &TypeTable, k: Operation) -> Option<Op>
    ensures there { is_some result ≡ has_op table.now k }
    ensures exact { IfSome result (λ op. slice_get table.now.ops k ≡ Some op) }
{
    // (read for its clause on what is known of a table)
    let _states = table.states();
    match k.amount() {
        Some(_) => None,
        None => listed_op(table, k.place()),
    }
}

/// The call and the reply at a place of a table.
fn listed_op(table: &TypeTable, place: u8) -> Option<Op>
    ensures there { is_some result ≡ has_op table.now place }
    ensures exact { IfSome result (λ op. slice_get table.now.ops place ≡ Some op) }
{
    let op = *table.ops().get(usize::from(place))?;
    // (read for its clause on what is known of a name)
    let _call = op.call.as_bytes();
    Some(op)
}

/// Whether an operation of a table has this place.
fn is_place(table: &TypeTable, place: u8) -> bool
    ensures { (result ≡ true) ↔ HasPlace table.now place }
{
    // (read for its clause on what is known of a table)
    let _states = table.states();
    listed_op(table, place).is_some()
}

/// The first operation of a table's call with this name.
fn first_op_of(table: &TypeTable, name: &[u8]) -> Option<Operation>
    ensures { result ≡ first_op table.now name.now }
{
    let place = table.first_op(name)?;
    Some(Operation::listed(place))
}

/// The next state of a table.
fn next_of(table: &TypeTable, s: u32, k: Operation) -> Option<u32>
    requires state { s < table.now.states }
    requires operation { k < length table.now.ops }
    ensures exact { result ≡ next table.now s k }
    ensures inside { IfSome result (λ t. t < table.now.states) }
{
    // (read for its clause on what is known of a table)
    let _states = table.states();
    match table.next(s as u16, k.place()) {
        Some(t) => Some(u32::from(t)),
        None => None,
    }
}

/// A file's table begins at this state from now on.
fn begin_file_at(file: &mut TypeFile, state: u32)
    requires { state < file.old.table.states }
    ensures { file.new ≡ file_at file.old state }
{
    parts_tell_the_file();
    // (read for its clause on what is known of a table)
    let _states = file.table.states();
    file.table.begin_at(state as u16);
}

/// Whether it is the other file, with a table that begins at this state.
fn is_file_at(file: &TypeFile, other: &TypeFile, state: u32) -> bool
    ensures { result ≡ true → file.now ≡ file_at other.now state }
{
    match u16::try_from(state) {
        Ok(state) => file.is_at(other, state),
        Err(_) => false,
    }
}
