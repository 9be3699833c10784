//! A type that is declared by a table.

ghost use Rattle.std.specs.Prelude.{◌≡◌, true, length, IfOk};
ghost use Rattle.std.specs.List.{list_any};

use crate::laws::parts_tell_the_file;
use equi_cert::Relation;
use std::alloc::{AllocError, Global};
use type_table::{ConflictTable, StateSet, TableKind, TypeTable};

/// A type, the states at which its operations are looked at, which of its states look like which,
/// and which of its pairs of operations conflict under each kind of recovery.
#[derive(Drop)]
pub struct TypeFile {
    pub table: TypeTable,
    pub reach: StateSet,
    pub relation: Relation,
    pub undo: ConflictTable,
    pub intentions: ConflictTable,
    ghost reach_fits: { length reach ≡ table.states },
    ghost some_reach: { list_any (λ member. member) reach ≡ true },
    ghost relation_fits: { length relation ≡ table.states },
    ghost undo_fits: { length undo ≡ length table.ops },
    ghost intentions_fits: { length intentions ≡ length table.ops },
}

impl TypeFile {
    ghost use Rattle.declared_types.specs.TypeFile.{file_at, conflicts_of};

    /// An equal file.
    pub fn copy(&self, alloc: Global) -> Result<TypeFile, AllocError>
        ensures { IfOk result (λ file. file ≡ self.now) }
    {
        let table = self.table.copy(alloc)?;
        let relation = self.relation.copy(alloc)?;
        Ok(TypeFile {
            table,
            reach: self.reach,
            relation,
            undo: self.undo.copy(),
            intentions: self.intentions.copy(),
        })
    }

    /// Whether it is the other file, with a table that begins at this state.
    pub fn is_at(&self, other: &TypeFile, state: u16) -> bool
        ensures { result ≡ true → self.now ≡ file_at other.now state }
    {
        parts_tell_the_file();
        if !self.table.is_at(&other.table, state) || !self.reach.is_same(&other.reach) {
            return false;
        }
        if !self.undo.is_same(&other.undo) || !self.intentions.is_same(&other.intentions) {
            return false;
        }
        self.relation.is_same(&other.relation)
    }

    /// Whether it is the same file as another.
    pub fn is_same(&self, other: &TypeFile) -> bool
        ensures { result ≡ true → self.now ≡ other.now }
    {
        self.is_at(other, other.table.initial())
    }

    /// The conflict table of a kind of recovery, which is of the table's operations.
    pub fn conflicts(&self, kind: TableKind) -> &ConflictTable
        ensures exact { result.now ≡ conflicts_of kind self.now }
        ensures fits { length result.now ≡ length self.now.table.ops }
    {
        match kind {
            TableKind::Undo => &self.undo,
            TableKind::Intentions => &self.intentions,
        }
    }
}
