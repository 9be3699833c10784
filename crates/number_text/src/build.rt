//! The number that the lines of an accepted text describe.

ghost use Rattle.std.specs.Prelude.{◌≡◌, ◌++◌, Some, slice_get, IfOk, OnOk, ◌∷◌, []};
ghost use Rattle.number_text.specs.NumberLines.{AreNumberLines, calls_of};
ghost use Rattle.number_text.specs.NumberFile.{IsNumberOf};

use crate::number_line::NumberLine;
use number_types::{NumberCall, NumberFile, number_with};
use std::alloc::{AllocError, Global};
use type_table::Name;

/// The number that the lines describe.
pub fn number_of(alloc: Global, lines: &[NumberLine]) -> Result<NumberFile, AllocError>
    requires { AreNumberLines lines.now }
    ensures { IfOk result (IsNumberOf lines.now) }
{
    let calls = calls_of(alloc, lines)?;
    let name = name_of(lines);
    let max = max_of(lines);
    let initial = initial_of(lines);
    number_with(alloc, name, max, initial, calls)
}

fn name_of(lines: &[NumberLine]) -> Name
    requires { AreNumberLines lines.now }
    ensures { slice_get lines.now 0 ≡ Some (NumberLine.Called result) }
{
    match lines.first() {
        Some(NumberLine::Called(name)) => *name,
        _ => unreachable!(),
    }
}

fn max_of(lines: &[NumberLine]) -> u32
    requires { AreNumberLines lines.now }
    ensures { slice_get lines.now 1 ≡ Some (NumberLine.Max result) }
{
    match lines.get(1) {
        Some(NumberLine::Max(max)) => *max,
        _ => unreachable!(),
    }
}

fn initial_of(lines: &[NumberLine]) -> u32
    requires { AreNumberLines lines.now }
    ensures { slice_get lines.now 2 ≡ Some (NumberLine.Initial result) }
{
    match lines.get(2) {
        Some(NumberLine::Initial(s)) => *s,
        _ => unreachable!(),
    }
}

/// The calls in the order of their lines.
fn calls_of(alloc: Global, lines: &[NumberLine]) -> Result<Vec<NumberCall>, AllocError>
    ensures { IfOk result (λ calls. calls.items ≡ calls_of lines.now) }
{
    let mut calls = Vec::new(alloc);
    for line in lines {
        push_call(&mut calls, *line)?;
    }
    Ok(calls)
}

/// Puts the call of a line after the others, where the line has one.
fn push_call(calls: &mut Vec<NumberCall>, line: NumberLine) -> Result<(), AllocError>
    ensures { OnOk result (calls.new.items ≡ calls.old.items ++ calls_of (line ∷ [])) }
{
    if let NumberLine::Call(call) = line {
        calls.push(call)?;
    }
    Ok(())
}
