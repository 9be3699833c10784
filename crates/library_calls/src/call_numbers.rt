//! The numbers of calls.

ghost use Rattle.std.specs.Prelude.{◌≡◌, ◌≢◌, None, Some};
ghost use Rattle.store.specs.Calls.{unnumbered};
ghost use Rattle.library_calls.specs.Calls.{IsCallNumber, NumbersNone};
ghost use Rattle.library_calls.specs.Codes.{code_of, number};
ghost use Rattle.library_calls.specs.Operations.{operation_by_number};

use crate::code::{Code, code_of};
use crate::operations::{known, number_of, operation_of};
use objects::Object;
use store::Store;

/// Gives the number of the call with this name at an object.
pub fn call_number(store: &Store<Object>, x: u32, name: &[u8], call: &mut u64) -> Code
    ensures found { IsCallNumber store.now x name.now (number result) call.new }
    ensures rest { number result ≢ 0 → call.new ≡ call.old }
{
    let Some(checked) = store.checked(x) else {
        return Code::NoObject;
    };
    match checked.first_op(name) {
        Some(c) => {
            *call = number_of(c);
            Code::Done
        }
        None => Code::NoCall,
    }
}

/// Why a call at an object is refused whose number is no operation's: as one without a name, which is no call
/// either.
pub(crate) fn no_call(store: &Store<Object>, t: u32, x: u32, c: u64) -> Code
    requires { operation_by_number c ≡ None }
    ensures told { number result ≡ number (code_of (Some (unnumbered store.now t x))) }
    ensures none { NumbersNone store.now x c }
{
    numbers_none(store, x, c);
    match store.would_bytes(t, x, b"") {
        Ok(_) => unreachable!(),
        Err(refusal) => code_of(refusal),
    }
}

/// No call at an object has a number that is no operation's.
pub(crate) fn numbers_none(store: &Store<Object>, x: u32, c: u64)
    requires { operation_by_number c ≡ None }
    ensures { NumbersNone store.now x c }
{
    match store.checked(x) {
        // (read for its clause on how many operations a type has)
        Some(checked) => _ = known(checked.declared()),
        None => {}
    }
}
