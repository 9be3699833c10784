//! The reply of a call in a state, whoever holds what.

ghost use Rattle.std.specs.Prelude.{◌≡◌, ◌<◌, ℕ};
ghost use Rattle.declared_types.specs.Declarations.{file_of, table_of};
ghost use Rattle.object_calls.specs.Asked.{AreLookedAt, IsAskedCall};
ghost use Rattle.object_calls.specs.Calls.{IsCall};
ghost use Rattle.object_calls.specs.Replies.{idle_at, reply_at};

use crate::answer::beside;
use crate::call::Call;
use crate::lowest::take_lowest;
use declared_types::{Declaration, DeclaredType};
use number_types::number_has_table;
use type_table::Operation;

/// The first operation of a call, in table order, that is legal in a state.
pub fn reply_at(declared: &DeclaredType, s: u32, call: Call) -> Option<Operation>
    requires state { s < (table_of declared.now).states }
    requires call { IsCall (table_of declared.now) call }
    ensures { result ≡ reply_at (table_of declared.now) s call.first }
{
    reply_of(declared, s, asked_in(declared, s, call))
}

/// That of each call of which these are the operations that are looked at.
fn reply_of(declared: &DeclaredType, s: u32, asked: Call) -> Option<Operation>
    requires state { s < (table_of declared.now).states }
    requires inside { AreLookedAt (table_of declared.now) asked }
    ensures { (c : ℕ) → IsAskedCall (idle_at (file_of declared.now) s) 0 c asked → result ≡ reply_at (table_of declared.now) s c }
{
    let operation = asked.first;
    let mut left = asked.operations;
    while left != 0 {
        let k = beside(operation, take_lowest(&mut left));
        if declared.next(s, k).is_some() {
            return Some(k);
        }
    }
    None
}

/// The operations of a call that are looked at in a state: of a number's call `value` the one with that number.
fn asked_in(declared: &DeclaredType, s: u32, call: Call) -> Call
    requires state { s < (table_of declared.now).states }
    requires call { IsCall (table_of declared.now) call }
    ensures inside { AreLookedAt (table_of declared.now) result }
    ensures asked { IsAskedCall (idle_at (file_of declared.now) s) 0 call.first result }
{
    match declared.declaration() {
        Declaration::Table(file) => {
            // (read for its clause on what is known of a table)
            let _states = file.table.states();
            call
        }
        Declaration::Number(number) => {
            number_has_table();
            // (read for what is known of a number)
            let _calls = number.calls();
            if !number.reads_value(call.first.place()) {
                return call;
            }
            Call {
                first: number.called(call.first, s),
                operations: call.operations,
            }
        }
    }
}
