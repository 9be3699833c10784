//! The calls of a type, and how one of them is found.

ghost use Rattle.std.specs.Prelude.{◌≡◌, true, All, ◌≤◌, ◌<◌, ◌++◌, [], ◌∷◌, ℕ, List, length, Some, IsSome, IfOk, IfSome, OnOk};
ghost use Rattle.type_table.specs.Table.{first_op};
ghost use Rattle.std.specs.Option.{option_map};
ghost use Rattle.declared_types.specs.Declarations.{table_of};
ghost use Rattle.object_calls.specs.Calls.{by_name, by_number, IsCall, IsNamedCall, HoldsCalls};
ghost use Rattle.number_types.specs.Operations.{number_table};
ghost use Rattle.object_calls.specs.Collected.{call_index, AreCallsOf};

use crate::call::{Call, NamedCall, are_same};
use crate::number_calls::{call_by_name, call_by_number};
use declared_types::{Declaration, DeclaredType};
use number_types::NumberFile;
use std::alloc::{AllocError, Global};
use std::marker::Model;
use std::sync::Arc;
use type_table::{Name, Operation, TypeTable};

/// The calls of a type, each once. Tables may share them.
#[derive(Drop)]
pub struct CallTable {
    calls: Arc<Vec<NamedCall>>,
}

impl Model for CallTable {
    ghost use Rattle.std.specs.Prelude.{List};
    ghost use Rattle.object_calls.specs.declared.call.NamedCall.{NamedCall};

    ghost Value = { List NamedCall };

    ghost view = { λ a. a.calls.value.items };
}

impl CallTable {
    /// The calls of a type that is declared so: of a table all of them, of a number those that its lines name.
    ///
    /// # Errors
    ///
    /// Memory was refused.
    pub fn new(alloc: Global, declared: &DeclaredType) -> Result<CallTable, AllocError>
        ensures { IfOk result (HoldsCalls (table_of declared.now)) }
    {
        match declared.declaration() {
            Declaration::Table(file) => CallTable::of_table(alloc, &file.table),
            Declaration::Number(number) => CallTable::of_number(alloc, number),
        }
    }

    /// Those of a table.
    fn of_table(alloc: Global, table: &TypeTable) -> Result<CallTable, AllocError>
        ensures { IfOk result (HoldsCalls table.now) }
    {
        // (read for its clause on what is known of a table)
        let count = table.op_count();
        let ops = table.ops();
        let mut calls = Vec::new(alloc);
        for k in 0..count {
            add_operation(&mut calls, ops[usize::from(k)].call, k)?;
        }
        CallTable::holding(alloc, calls)
    }

    /// Those of a number that its lines name.
    fn of_number(alloc: Global, number: &NumberFile) -> Result<CallTable, AllocError>
        ensures { IfOk result (HoldsCalls (number_table number.now)) }
    {
        let mut calls = Vec::new(alloc);
        for row in number.rows() {
            add_named(&mut calls, number, row.call)?;
        }
        CallTable::holding(alloc, calls)
    }

    /// A table of these calls.
    fn holding(alloc: Global, calls: Vec<NamedCall>) -> Result<CallTable, AllocError>
        ensures { IfOk result (λ its. its ≡ calls.items) }
    {
        let calls = Arc::new(alloc, calls)?;
        Ok(CallTable { calls })
    }

    /// The same calls, held once by both.
    ///
    /// # Errors
    ///
    /// Memory was refused.
    pub fn share(&self) -> Result<CallTable, AllocError>
        ensures { IfOk result (λ its. its ≡ self.now) }
    {
        let calls = Arc::clone(&self.calls)?;
        Ok(CallTable { calls })
    }

    /// Whether the calls are the same. A no says nothing.
    pub fn has_those_of(&self, other: &CallTable) -> bool
        ensures { result ≡ true → self.now ≡ other.now }
    {
        are_same(self.calls.as_slice(), other.calls.as_slice())
    }

    /// The call with this name of the type that is declared so.
    pub fn by_name(&self, declared: &DeclaredType, name: &[u8]) -> Option<Call>
        requires { HoldsCalls (table_of declared.now) self.now }
        ensures named { option_map (λ (c : Call). c.first) result ≡ first_op (table_of declared.now) name.now }
        ensures call { IfSome result (IsCall (table_of declared.now)) }
    {
        if let Some(call) = self.held_by_name(name) {
            return Some(call);
        }
        match declared.declaration() {
            Declaration::Table(file) => {
                // (read for its clause on what is known of a table)
                let _states = file.table.states();
                None
            }
            Declaration::Number(number) => call_by_name(number, name),
        }
    }

    /// The call with this number of the type that is declared so.
    #[inline(always)]
    pub fn by_number(&self, declared: &DeclaredType, c: Operation) -> Option<Call>
        requires { HoldsCalls (table_of declared.now) self.now }
        ensures named { (name : List ℕ) → first_op (table_of declared.now) name ≡ Some c → IsSome result }
        ensures call { IfSome result (λ call. (call.first ≡ c) × IsCall (table_of declared.now) call) }
    {
        if let Some(call) = self.held_by_number(c) {
            return Some(call);
        }
        match declared.declaration() {
            Declaration::Table(file) => {
                // (read for its clause on what is known of a table)
                let _states = file.table.states();
                None
            }
            Declaration::Number(number) => call_by_number(number, c),
        }
    }

    /// The call that is held with this name.
    fn held_by_name(&self, name: &[u8]) -> Option<Call>
        ensures { result ≡ by_name self.now name.now }
    {
        let named = self
            .calls
            .iter()
            .find(|named| named.name.as_bytes() == name)?;
        Some(named.call)
    }

    /// The call that is held with this number.
    #[inline(always)]
    fn held_by_number(&self, c: Operation) -> Option<Call>
        ensures exact { result ≡ by_number self.now c }
        ensures number { IfSome result (λ call. call.first ≡ c) }
    {
        let named = self.calls.iter().find(|named| named.call.first == c)?;
        Some(named.call)
    }
}

/// Adds the operation k, whose call has this name, to the calls of the operations below it.
fn add_operation(calls: &mut Vec<NamedCall>, name: Name, k: u8) -> Result<(), AllocError>
    requires { k < 64 }
    ensures { OnOk result ((names : List (List ℕ)) → length names ≡ k → AreCallsOf names calls.old.items → AreCallsOf (names ++ name ∷ []) calls.new.items) }
{
    match place_of(calls, name) {
        Some(place) => calls[place].call.operations |= 1 << k,
        None => {
            // (read for its clause on what is known of a name)
            let _bytes = name.as_bytes();
            let call = Call {
                first: Operation::listed(k),
                operations: 1 << k,
            };
            calls.push(NamedCall { name, call })?;
        }
    }
    Ok(())
}

/// Adds the call of a number that a name asks for, where there is one and it isn't held yet.
fn add_named(calls: &mut Vec<NamedCall>, number: &NumberFile, name: Name) -> Result<(), AllocError>
    requires { All (IsNamedCall (number_table number.now)) calls.old.items }
    ensures { OnOk result (All (IsNamedCall (number_table number.now)) calls.new.items) }
{
    if place_of(calls, name).is_some() {
        return Ok(());
    }
    if let Some(call) = call_by_name(number, name.as_bytes()) {
        calls.push(NamedCall { name, call })?;
    }
    Ok(())
}

/// The place of the call with this name.
fn place_of(calls: &[NamedCall], name: Name) -> Option<usize>
    ensures { result ≡ call_index calls.now name }
{
    calls.iter().position(|known| known.name == name)
}
