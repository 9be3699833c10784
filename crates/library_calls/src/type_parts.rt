//! What is read of a type.

ghost use Rattle.std.specs.Prelude.{◌≡◌, ◌≢◌, ◌<◌, length, is_some, IfSome};
ghost use Rattle.type_table.specs.ConflictTable.{conflicts};
ghost use Rattle.type_table.specs.Table.{has_op, op_of};
ghost use Rattle.object_trait.specs.Object.{conflicts_by};
ghost use Rattle.declared_types.specs.Declarations.{table_of, IsByTable};
ghost use Rattle.library_calls.specs.Codes.{number};
ghost use Rattle.library_calls.specs.Named.{call_name_of, IsFoundPut, IsPut, IsStep, names_at, reply_name_of, TellsConflictOf};
ghost use Rattle.library_calls.specs.Operations.{IsDeclaredBy};

use crate::code::Code;
use crate::operations::{known, operation_of};
use declared_types::DeclaredType;
use table_checker::CheckedType;
use type_table::{Name, Op, Operation};

/// Puts a name at the front of a room, and says how many bytes it has.
pub fn put_name(name: Name, room: &mut [u8], count: &mut u64) -> Code
    ensures put { IsPut name room.old (number result) room.new count.new }
    ensures rest { number result ≢ 0 → (room.new ≡ room.old) × (count.new ≡ count.old) }
{
    let bytes = name.as_bytes();
    if room.len() < bytes.len() {
        return Code::NoRoom;
    }
    room[..bytes.len()].copy_from_slice(bytes);
    *count = bytes.len() as u64;
    Code::Done
}

/// The same of a name that may not be there.
fn put_found(name: Option<Name>, room: &mut [u8], count: &mut u64) -> Code
    ensures put { IsFoundPut name room.old (number result) room.new count.new }
    ensures rest { number result ≢ 0 → (room.new ≡ room.old) × (count.new ≡ count.old) }
{
    match name {
        Some(name) => put_name(name, room, count),
        None => Code::NoOperation,
    }
}

/// What declares a type.
pub fn declared_by(checked: &CheckedType) -> &DeclaredType
    ensures { IsDeclaredBy checked.now result.now }
{
    known(checked.declared())
}

/// The operation with a number, where the type has it.
fn operation_at(declared: &DeclaredType, k: u64) -> Option<Operation>
    ensures there { is_some result ≡ has_op (table_of declared.now) k }
    ensures same { IfSome result (λ operation. operation ≡ k) }
{
    let declared = known(declared);
    let operation = operation_of(k)?;
    match declared.op(operation) {
        Some(_) => Some(operation),
        None => None,
    }
}

/// The names of the operation with a number, where the type has it.
fn op_of(declared: &DeclaredType, k: u64) -> Option<Op>
    ensures { result ≡ op_of (table_of declared.now) k }
{
    let operation = operation_at(declared, k)?;
    declared.op(operation)
}

/// The names of an operation: at a place that the type lists those of its line.
fn names_at(declared: &DeclaredType, k: u64) -> Option<Op>
    ensures { result ≡ names_at declared.now k }
{
    let rows = declared.rows();
    if k < rows.len() as u64 {
        Some(rows[k as usize])
    } else {
        op_of(declared, k)
    }
}

/// The name of the call of an operation.
fn call_of(declared: &DeclaredType, k: u64) -> Option<Name>
    ensures { result ≡ call_name_of declared.now k }
{
    let op = names_at(declared, k)?;
    Some(op.call)
}

/// The reply of an operation.
fn reply_of(declared: &DeclaredType, k: u64) -> Option<Name>
    ensures { result ≡ reply_name_of declared.now k }
{
    let op = names_at(declared, k)?;
    Some(op.reply)
}

/// Puts the name of the call of an operation at the front of a room.
pub fn put_call(declared: &DeclaredType, k: u64, room: &mut [u8], count: &mut u64) -> Code
    ensures put { IsFoundPut (call_name_of declared.now k) room.old (number result) room.new count.new }
    ensures rest { number result ≢ 0 → (room.new ≡ room.old) × (count.new ≡ count.old) }
{
    put_found(call_of(declared, k), room, count)
}

/// Puts the reply of an operation at the front of a room.
pub fn put_reply(declared: &DeclaredType, k: u64, room: &mut [u8], count: &mut u64) -> Code
    ensures put { IsFoundPut (reply_name_of declared.now k) room.old (number result) room.new count.new }
    ensures rest { number result ≢ 0 → (room.new ≡ room.old) × (count.new ≡ count.old) }
{
    put_found(reply_of(declared, k), room, count)
}

/// Gives the state to which an operation leads from a state.
pub fn step(declared: &DeclaredType, s: u64, k: u64, to: &mut u64) -> Code
    ensures step { IsStep (table_of declared.now) s k (number result) to.new }
    ensures rest { number result ≢ 0 → to.new ≡ to.old }
{
    if s > u64::from(declared.greatest()) {
        return Code::NoState;
    }
    let Some(operation) = operation_at(declared, k) else {
        return Code::NoOperation;
    };
    match declared.next(s as u32, operation) {
        Some(next) => {
            *to = u64::from(next);
            Code::Done
        }
        None => Code::NotLegal,
    }
}

/// Says whether an operation that is requested conflicts with one that is held, of those that the type lists.
pub fn conflict(checked: &CheckedType, requested: u64, other: u64, told: &mut u32) -> Code
    ensures conflict { TellsConflictOf checked.now requested other (number result) told.new }
    ensures rest { number result ≢ 0 → told.new ≡ told.old }
{
    let ops = declared_by(checked).rows().len() as u64;
    if requested >= ops {
        return Code::NoOperation;
    }
    if other >= ops {
        return Code::NoOperation;
    }
    if is_in_table(checked, requested as u8, other as u8) {
        *told = 1;
        return Code::Done;
    }
    *told = 0;
    Code::Done
}

/// Whether two operations are a pair of the conflict table of the type's kind. Escrow has none.
fn is_in_table(checked: &CheckedType, requested: u8, other: u8) -> bool
    requires requested { IsByTable checked.now.kind → requested < length checked.now.file.table.ops }
    requires other { IsByTable checked.now.kind → other < length checked.now.file.table.ops }
    ensures { result ≡ conflicts (conflicts_by checked.now.kind checked.now.file) requested other }
{
    match checked.kind().table_kind() {
        Some(kind) => checked.conflicts(kind).conflicts(requested, other),
        None => false,
    }
}
