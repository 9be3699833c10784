//! A number: a type whose states are the numbers from 0 to a greatest one.

ghost use Rattle.std.specs.Prelude.{◌≡◌, ◌↔◌, ◌+◌, ◌/◌, ◌≤◌, ◌<◌, true, Some, slice_get, length, IfOk, IfSome};
ghost use Rattle.type_table.specs.Limits.{most_ops};
ghost use Rattle.type_table.specs.Table.{HasPlace, call_of, first_op, next};
ghost use Rattle.escrow_laws.specs.Bounds.{moved};
ghost use Rattle.number_types.specs.Number.{Number, IsNumber, number_at};
ghost use Rattle.number_types.specs.Operations.{number_rows, number_table, IsWhole};
ghost use Rattle.number_types.specs.Called.{IsCalled};

use crate::laws::number_has_table;
use crate::number_call::{NumberCall, are_same};
use crate::rows::rows_of;
use escrow_laws::Bounded;
use std::alloc::{AllocError, Global};
use std::marker::Model;
use type_table::{Name, Op, Operation};

/// A type whose states are the numbers from 0 to a greatest one: its name, its initial value, and its
/// calls in the order of their lines. Contracts see it as a `Number`.
#[derive(Drop)]
pub struct NumberFile {
    name: Name,
    max: u32,
    initial: u32,
    calls: Vec<NumberCall>,
    // those of the calls
    rows: Vec<Op>,
}

impl Model for NumberFile {
    ghost use Rattle.std.specs.Prelude.{◌≡◌};
    ghost use Rattle.number_types.specs.Number.{Number};
    ghost use Rattle.number_types.specs.Operations.{IsWhole};

    ghost Value = { Number };

    ghost view = { λ a. record { name = a.name; max = a.max; initial = a.initial; calls = a.calls.items } };

    ghost invariant = { λ a. IsWhole (record { name = a.name; max = a.max; initial = a.initial; calls = a.calls.items }) a.rows.items };
}

impl NumberFile {
    /// The number of these parts, with the rows of its calls.
    pub(crate) fn new(
        name: Name,
        max: u32,
        initial: u32,
        calls: Vec<NumberCall>,
        rows: Vec<Op>,
    ) -> NumberFile
        requires { let parts : Number = record { name = name; max = max; initial = initial; calls = calls.items } in IsWhole parts rows.items }
        ensures { let parts : Number = record { name = name; max = max; initial = initial; calls = calls.items } in result ≡ parts }
    {
        NumberFile {
            name,
            max,
            initial,
            calls,
            rows,
        }
    }

    /// An equal number.
    pub fn copy(&self, alloc: Global) -> Result<NumberFile, AllocError>
        ensures { IfOk result (λ number. number ≡ self.now) }
    {
        let calls = Vec::from_slice(alloc, &self.calls)?;
        let rows = Vec::from_slice(alloc, &self.rows)?;
        Ok(NumberFile {
            name: self.name,
            max: self.max,
            initial: self.initial,
            calls,
            rows,
        })
    }

    /// It begins at this value from now on.
    pub fn begin_at(&mut self, value: u32)
        requires { value ≤ self.old.max }
        ensures { self.new ≡ number_at self.old value }
    {
        self.initial = value;
    }

    /// Whether it is the other number, beginning at this value.
    pub fn is_at(&self, other: &NumberFile, value: u32) -> bool
        ensures { result ≡ true → self.now ≡ number_at other.now value }
    {
        if self.initial != value || self.max != other.max || self.name != other.name {
            return false;
        }
        are_same(&self.calls, &other.calls)
    }

    /// The name of the type.
    pub fn name(&self) -> Name
        ensures { result ≡ self.now.name }
    {
        self.name
    }

    /// The greatest value, 1 to 4,294,967,295.
    pub fn max(&self) -> u32
        ensures { result ≡ self.now.max }
    {
        self.max
    }

    /// The initial value, 0 to the greatest.
    pub fn initial(&self) -> u32
        ensures { result ≡ self.now.initial }
    {
        self.initial
    }

    /// The calls, 1 to 32, in the order of their lines, and what else is known of each number.
    pub fn calls(&self) -> &[NumberCall]
        ensures exact { result.now ≡ self.now.calls }
        ensures number { IsNumber self.now }
    {
        &self.calls
    }

    /// The names of the operations, at most 64, in the order of the lines.
    pub fn rows(&self) -> &[Op]
        ensures exact { result.now ≡ number_rows self.now }
        ensures few { length result.now ≤ most_ops }
    {
        &self.rows
    }

    /// Whether some operation has this place.
    pub fn has_place(&self, place: u8) -> bool
        ensures { (result ≡ true) ↔ HasPlace (number_table self.now) place }
    {
        usize::from(place / 2) < self.calls().len() && (place % 2 == 0 || !self.reads_value(place))
    }

    /// The operation that stands for the call of c, its first one, where the number is `number`, 0 to the
    /// greatest: where the call reads the value, the one with that value, and else c itself.
    pub fn called(&self, c: Operation, number: u32) -> Operation
        requires first { first_op (number_table self.now) (call_of (number_table self.now) c) ≡ Some c }
        requires inside { number ≤ self.now.max }
        ensures { IsCalled (number_table self.now) number c result }
    {
        number_has_table();
        // (read for what is known of a number)
        let _calls = self.calls();
        if self.reads_value(c.place()) {
            Operation::with(c.place(), number)
        } else {
            c
        }
    }

    /// Whether the line of a place reads the value.
    pub fn reads_value(&self, place: u8) -> bool
        ensures { (result ≡ true) ↔ (slice_get self.now.calls (place / 2) ≡ Some NumberCall.Value) }
    {
        matches!(
            self.calls().get(usize::from(place / 2)),
            Some(NumberCall::Value)
        )
    }

    /// The number after operation k at a number, where there is such an operation and it is legal there.
    pub fn next(&self, number: u32, k: Operation) -> Option<u32>
        ensures exact { result ≡ next (number_table self.now) number k }
        ensures inside { IfSome result (λ t. t < self.now.max + 1) }
    {
        number_has_table();
        // (read for what is known of a number)
        let _calls = self.calls();
        moved(self.done(k), number)
    }
}

/// The number after an operation, where that is legal at a number.
fn moved(op: Bounded, number: u32) -> Option<u32>
    requires enough { op.takes ≤ op.low }
    requires room { op.high + op.gives ≤ 4294967295 + op.takes }
    ensures { result ≡ moved op number }
{
    if op.low <= number && number <= op.high {
        Some(number - op.takes + op.gives)
    } else {
        None
    }
}

/// The number of these parts.
pub fn number_with(
    alloc: Global,
    name: Name,
    max: u32,
    initial: u32,
    calls: Vec<NumberCall>,
) -> Result<NumberFile, AllocError>
    requires { let parts : Number = record { name = name; max = max; initial = initial; calls = calls.items } in IsNumber parts }
    ensures { let parts : Number = record { name = name; max = max; initial = initial; calls = calls.items } in IfOk result (λ number. number ≡ parts) }
{
    let rows = rows_of(alloc, &calls)?;
    Ok(NumberFile::new(name, max, initial, calls, rows))
}
