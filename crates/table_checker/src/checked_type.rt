ghost use Rattle.std.specs.Prelude.{◌≡◌, ◌↔◌, ◌≤◌, ◌<◌, ◌-◌, true, Some, length, slice_get, is_some, IfOk, IfSome, OnErr};
ghost use Rattle.type_table.specs.Kind.{of_table};
ghost use Rattle.type_table.specs.StateSet.{has};
ghost use Rattle.type_table.specs.Table.{IsTable, has_op, first_op};
ghost use Rattle.type_table.specs.declared.kind.Kind.TheVariants as kinds;
ghost use Rattle.escrow_laws.specs.Bounds.{AreBounds, bounds_of};
ghost use Rattle.number_types.specs.Operations.{number_ops, number_table};
ghost use Rattle.table_checker.specs.Checked.{condition_of};
ghost use Rattle.table_checker.specs.Declarations.{HoldsBounds};
ghost use Rattle.table_checker.specs.Still.{is_still_in};
ghost use Rattle.declared_types.specs.declared.declared_type.Declaration.TheVariants.{Number as Numbers};

use crate::condition::Condition;
use crate::laws::{at_is_checked, number_is_checked};
use crate::scan::passes_everywhere;
use crate::still::still_operations;
use declared_types::{Declaration, DeclaredType, TypeFile};
use escrow_laws::{Bounded, OpBounds};
use number_types::{NumberFile, number_tells_bounds};
use std::alloc::{AllocError, Global};
use std::marker::Model;
use type_table::{ConflictTable, Kind, MOST_OPS, Op, Operation, TableKind, TypeTable};

/// A type that the checker accepted for a kind of recovery. Only the checker makes one. Contracts see
/// the kind and a file; of a number that is one of a table which is written nowhere.
#[derive(Drop)]
pub struct CheckedType {
    kind: Kind,
    declared: DeclaredType,
    // For escrow those of the type's operations, of a number the first ones, and else those of none.
    bounds: OpBounds,
    // Of each operation of a table whether it passes the test for those that change nothing; for escrow this says nothing.
    still: [bool; MOST_OPS],
}

impl Model for CheckedType {
    ghost use Rattle.table_checker.specs.Checked.{Checked};
    ghost use Rattle.table_checker.specs.Declarations.{IsAccepted};
    ghost use Rattle.table_checker.specs.Still.{HoldsStill};
    ghost use Rattle.declared_types.specs.Declarations.{file_of};

    ghost Value = { Checked };

    ghost view = { λ a. record { kind = a.kind; file = file_of a.declared } };

    ghost invariant = { λ a. IsAccepted a.kind a.declared a.bounds × HoldsStill a.kind (file_of a.declared) a.still };
}

impl CheckedType {
    ghost use Rattle.table_checker.specs.Checked.{IsChecked, IsCommuting, IsNumericType, IsStrong};
    ghost use Rattle.table_checker.specs.At.{checked_at, may_begin_at};
    ghost use Rattle.declared_types.specs.Declarations.{file_of, number_file, IsDeclaredFor, IsByTable};
    ghost use Rattle.type_table.specs.ConflictTable.{IsSquare};
    ghost use Rattle.declared_types.specs.TypeFile.{conflicts_of};

    /// What the checker tested of a conflict table, as a value.
    pub(crate) fn commuting(kind: TableKind, file: TypeFile) -> CheckedType
        requires { IsCommuting kind file }
        ensures { result ≡ record { kind = of_table kind; file = file } }
    {
        let still = still_operations(&file);
        CheckedType {
            kind: kind.into(),
            declared: DeclaredType::table(file),
            bounds: OpBounds::none(),
            still,
        }
    }

    /// A file whose type is numeric, as a value.
    pub(crate) fn numeric(file: TypeFile, bounds: OpBounds) -> CheckedType
        requires numeric { AreBounds file.table (file.table.states - 1) (bounds_of file.table) }
        requires bounds { bounds ≡ bounds_of file.table }
        ensures { result ≡ record { kind = kinds.Escrow; file = file } }
    {
        // (read for its clause on what is known of a table)
        let _states = file.table.states();
        CheckedType {
            kind: Kind::Escrow,
            declared: DeclaredType::table(file),
            bounds,
            still: [false; MOST_OPS],
        }
    }

    /// A number, as a value.
    pub(crate) fn number(number: NumberFile) -> CheckedType
        ensures { result ≡ record { kind = kinds.Escrow; file = number_file number } }
    {
        number_is_checked();
        let bounds = first_bounds(&number);
        // (read for its clause on what is known of a number)
        let _calls = number.calls();
        CheckedType {
            kind: Kind::Escrow,
            declared: DeclaredType::number(number),
            bounds,
            still: [false; MOST_OPS],
        }
    }

    /// The same type, beginning at this state, without a second check: None where it may not begin there.
    ///
    /// # Errors
    ///
    /// Memory was refused, which is asked for only where it may.
    pub fn at(&self, alloc: Global, state: u32) -> Result<Option<CheckedType>, AllocError>
        ensures there { IfOk result (λ found. is_some found ≡ may_begin_at self.now state) }
        ensures same { IfOk result (λ found. IfSome found (λ c. c ≡ checked_at self.now state)) }
        ensures refused { OnErr result (may_begin_at self.now state ≡ true) }
    {
        if !self.is_inside(state) {
            return Ok(None);
        }
        at_is_checked();
        let mut declared = self.declared.copy(alloc)?;
        declared.begin_at(state);
        Ok(Some(CheckedType {
            kind: self.kind,
            declared,
            bounds: self.bounds.copy(),
            still: self.still,
        }))
    }

    /// Whether it may begin at this state.
    fn is_inside(&self, state: u32) -> bool
        ensures { result ≡ may_begin_at self.now state }
    {
        match self.kind {
            Kind::Undo | Kind::Intentions => is_in_reach(self.file(), state),
            Kind::Escrow => state <= self.greatest(),
        }
    }

    /// Whether it is the other type, beginning at this state.
    pub fn is_at(&self, other: &CheckedType, state: u32) -> bool
        ensures { result ≡ true → self.now ≡ checked_at other.now state }
    {
        if self.kind != other.kind {
            return false;
        }
        self.declared.is_at(&other.declared, state)
    }

    /// Whether it is the same type as another.
    pub fn is_same(&self, other: &CheckedType) -> bool
        ensures { result ≡ true → self.now ≡ other.now }
    {
        self.is_at(other, other.initial())
    }

    /// The kind of recovery for which the file was accepted.
    pub fn kind(&self) -> Kind
        ensures { result ≡ self.now.kind }
    {
        self.kind
    }

    /// What declares it: a number only for escrow.
    pub fn declared(&self) -> &DeclaredType
        ensures exact { file_of result.now ≡ self.now.file }
        ensures kind { IsDeclaredFor self.now.kind result.now }
        ensures checked { IsChecked self.now }
    {
        &self.declared
    }

    /// The call and the reply of operation k, where the type has it.
    pub fn op(&self, k: Operation) -> Option<Op>
        ensures there { is_some result ≡ has_op self.now.file.table k }
        ensures exact { IfSome result (λ op. slice_get self.now.file.table.ops k ≡ Some op) }
    {
        self.declared.op(k)
    }

    /// The first operation of the call with this name, where there is such a call.
    pub fn first_op(&self, name: &[u8]) -> Option<Operation>
        ensures exact { result ≡ first_op self.now.file.table name.now }
        ensures checked { IsChecked self.now }
    {
        self.declared.first_op(name)
    }

    /// The state at which it begins.
    pub fn initial(&self) -> u32
        ensures exact { result ≡ self.now.file.table.initial }
        ensures checked { IsChecked self.now }
    {
        self.declared.initial()
    }

    /// The greatest of its states, which are the numbers from 0.
    pub fn greatest(&self) -> u32
        ensures exact { result ≡ self.now.file.table.states - 1 }
        ensures below { result < self.now.file.table.states }
    {
        self.declared.greatest()
    }

    /// The accepted file of a kind whose types are declared by tables, and what was tested of it.
    pub fn file(&self) -> &TypeFile
        requires { IsByTable self.now.kind }
        ensures exact { result.now ≡ self.now.file }
        ensures table { IsTable self.now.file.table }
        ensures checked { IsChecked self.now }
    {
        match self.declared.file() {
            Some(file) => known(file),
            None => unreachable!(),
        }
    }

    /// That file's table.
    pub fn table(&self) -> &TypeTable
        requires { IsByTable self.now.kind }
        ensures { result.now ≡ self.now.file.table }
    {
        &self.file().table
    }

    /// That file's conflict table for a kind, which is of the table's operations.
    pub fn conflicts(&self, kind: TableKind) -> &ConflictTable
        requires { IsByTable self.now.kind }
        ensures exact { result.now ≡ conflicts_of kind self.now.file }
        ensures fits { IsSquare (length self.now.file.table.ops) result.now }
    {
        let conflicts = self.file().conflicts(kind);
        // for its clause that the table is square
        conflicts.ops();
        conflicts
    }

    /// Whether operation k of a table changes nothing by the test of each state of the file's set: it was computed once.
    pub fn is_still(&self, k: Operation) -> bool
        requires kind { IsByTable self.now.kind }
        requires operation { k < length self.now.file.table.ops }
        ensures { result ≡ is_still_in self.now.file k }
    {
        // (read for its clause on what is known of a table)
        let _states = self.table().states();
        self.still[usize::from(k.place())]
    }

    /// For escrow the bounds of operation k.
    pub fn bounded(&self, k: Operation) -> Bounded
        requires kind { self.now.kind ≡ kinds.Escrow }
        requires operation { k < length self.now.file.table.ops }
        ensures exact { slice_get (bounds_of self.now.file.table) k ≡ Some result }
        ensures numeric { IsNumericType self.now.file.table }
    {
        match self.declared.declaration() {
            Declaration::Table(file) => held_at(&file.table, &self.bounds, k),
            Declaration::Number(number) => held_or_worked_out(number, &self.bounds, k),
        }
    }

    /// Whether the stronger condition holds: for update in place, where each pair outside the
    /// conflict table meets the two-way condition at each state of the set; for deferred update and for
    /// escrow always.
    pub fn is_strong(&self) -> bool
        ensures { (result ≡ true) ↔ IsStrong self.now }
    {
        match self.kind {
            Kind::Undo => {
                let file = self.file();
                passes_everywhere(Condition::BackwardBothWays, file, &file.undo)
            }
            Kind::Intentions | Kind::Escrow => true,
        }
    }
}

/// A file, and what is known of its table.
fn known(file: &TypeFile) -> &TypeFile
    ensures exact { result.now ≡ file.now }
    ensures table { IsTable file.now.table }
{
    let _states = file.table.states();
    file
}

/// Whether a state is of the file's set.
fn is_in_reach(file: &TypeFile, state: u32) -> bool
    ensures { result ≡ has file.now.reach state }
{
    // (read for its clause on what is known of a table)
    if state >= u32::from(file.table.states()) {
        return false;
    }
    file.reach.has(state as u16)
}

/// What a kind asks of each pair outside its conflict table.
pub fn condition_of(kind: TableKind) -> Condition
    ensures { result ≡ condition_of kind }
{
    match kind {
        TableKind::Undo => Condition::Backward,
        TableKind::Intentions => Condition::Forward,
    }
}

/// The bounds of a table's operation, among those of all of them.
fn held_at(table: &TypeTable, bounds: &OpBounds, k: Operation) -> Bounded
    requires bounds { bounds.now ≡ bounds_of table.now }
    requires operation { k < length table.now.ops }
    ensures { slice_get (bounds_of table.now) k ≡ Some result }
{
    // (read for its clause on what is known of a table)
    let _states = table.states();
    bounds.as_slice()[usize::from(k.place())]
}

/// The bounds of a number's operation: those of the first ones are held, and the others are worked out.
fn held_or_worked_out(number: &NumberFile, bounds: &OpBounds, k: Operation) -> Bounded
    requires bounds { HoldsBounds kinds.Escrow (Numbers number.now) bounds.now }
    requires operation { k < length (number_ops number.now) }
    ensures { slice_get (bounds_of (number_table number.now)) k ≡ Some result }
{
    match (k.amount(), bounds.as_slice().get(usize::from(k.place()))) {
        (None, Some(held)) => *held,
        _ => bounded_of(number, k),
    }
}

/// The bounds of a number's first operations, which have no amount: as many as a table may have.
fn first_bounds(number: &NumberFile) -> OpBounds
    ensures { HoldsBounds kinds.Escrow (Numbers number.now) result }
{
    let mut bounds = OpBounds::none();
    for place in 0..64 {
        bounds.push(bounded_of(number, Operation::listed(place)));
    }
    bounds
}

/// The bounds of a number's operation, which are those that its table's steps tell.
fn bounded_of(number: &NumberFile, k: Operation) -> Bounded
    requires { k < length (number_ops number.now) }
    ensures { slice_get (bounds_of (number_table number.now)) k ≡ Some result }
{
    number_tells_bounds();
    // (read for its clause on what is known of a number)
    let _calls = number.calls();
    number.bounded(k)
}
