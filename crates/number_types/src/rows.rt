//! The rows of a number's lines: the names of its calls and replies.

ghost use Rattle.std.specs.Prelude.{◌≡◌, ◌++◌, ◌∷◌, [], true, IfOk, OnOk};
ghost use Rattle.std.specs.List.{flat_map};
ghost use Rattle.type_table.specs.Name.{is_name};
ghost use Rattle.number_types.specs.Operations.{row_name, op_with, rows_of_call};

use crate::number_call::NumberCall;
use crate::number_op::{named, numbered_name};
use std::alloc::{AllocError, Global};
use type_table::{Name, Op};

/// The rows of calls in their order.
pub fn rows_of(alloc: Global, calls: &[NumberCall]) -> Result<Vec<Op>, AllocError>
    ensures { IfOk result (λ rows. rows.items ≡ flat_map rows_of_call calls.now) }
{
    let mut rows = Vec::new(alloc);
    for call in calls {
        push_rows(&mut rows, *call)?;
    }
    Ok(rows)
}

/// Puts the rows of a call after the others.
#[tactic(auto, unfolding(type_table::specs::Name::is_name))]
fn push_rows(rows: &mut Vec<Op>, call: NumberCall) -> Result<(), AllocError>
    ensures { OnOk result (rows.new.items ≡ rows.old.items ++ rows_of_call call) }
{
    let name = row_name(call);
    match call {
        NumberCall::Take(_) | NumberCall::TakeAny => push_two(rows, name, b"ok", b"short"),
        NumberCall::Give(_) | NumberCall::GiveAny => push_two(rows, name, b"ok", b"full"),
        NumberCall::AtLeast(_) => push_two(rows, name, b"yes", b"no"),
        NumberCall::Value => push_row(rows, name, b"n"),
    }
}

/// Puts the rows of a call with two replies after the others.
fn push_two(rows: &mut Vec<Op>, call: Name, first: &[u8], second: &[u8]) -> Result<(), AllocError>
    requires first { is_name first.now ≡ true }
    requires second { is_name second.now ≡ true }
    ensures { OnOk result (rows.new.items ≡ rows.old.items ++ op_with call first.now ∷ op_with call second.now ∷ []) }
{
    push_row(rows, call, first)?;
    push_row(rows, call, second)
}

/// Puts a row after the others.
fn push_row(rows: &mut Vec<Op>, call: Name, reply: &[u8]) -> Result<(), AllocError>
    requires { is_name reply.now ≡ true }
    ensures { OnOk result (rows.new.items ≡ rows.old.items ++ op_with call reply.now ∷ []) }
{
    let reply = named(reply);
    rows.push(Op { call, reply })?;
    Ok(())
}

/// The name of a call, as its line has it.
#[tactic(auto, unfolding(type_table::specs::Name::is_name))]
fn row_name(call: NumberCall) -> Name
    ensures { result ≡ row_name call }
{
    match call {
        NumberCall::Take(k) => numbered_name(b"take:", k),
        NumberCall::TakeAny => named(b"take:any"),
        NumberCall::Give(k) => numbered_name(b"give:", k),
        NumberCall::GiveAny => named(b"give:any"),
        NumberCall::AtLeast(k) => numbered_name(b"atleast:", k),
        NumberCall::Value => named(b"value"),
    }
}
