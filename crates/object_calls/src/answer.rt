//! The answer of a call at one object.

ghost use Rattle.std.specs.Prelude.{◌≡◌, ℕ};
ghost use Rattle.object_calls.specs.Calls.{IsCall};
ghost use Rattle.object_calls.specs.Asked.{beside, AreLookedAt, IsAskedCall};
ghost use Rattle.object_calls.specs.Answers.{busy_answer, answer_of};

use crate::call::Call;
use crate::lowest::take_lowest;
use declared_types::Declaration;
use number_types::number_has_table;
use object_trait::{Admission, Recovery};
use type_table::Operation;

/// What a call is answered.
#[derive(Clone, Copy, Debug, PartialEq, Eq)]
pub enum Answer {
    /// The reply: this operation of the object's type was executed.
    Reply(Operation),
    /// Some operation of the call is legal, and each legal one conflicts with an operation that
    /// another open transaction holds; this one holds what the first legal one conflicts with.
    Busy(u32),
    /// No operation of the call is legal.
    None,
}

/// The answer of t's call at this object.
#[inline(always)]
pub fn choose<R: Recovery>(object: &R, t: u32, call: Call) -> Answer
    requires { IsCall (R.meaning object.now).checked.file.table call }
    ensures { result ≡ answer_of (R.meaning object.now) t call.first }
{
    choose_of(object, t, asked_at(object, t, call))
}

/// The answer of each call of which these are the operations that are looked at. Who blocks the first legal one is kept.
#[inline(always)]
fn choose_of<R: Recovery>(object: &R, t: u32, asked: Call) -> Answer
    requires { AreLookedAt (R.meaning object.now).checked.file.table asked }
    ensures { (c : ℕ) → IsAskedCall (R.meaning object.now) t c asked → result ≡ answer_of (R.meaning object.now) t c }
{
    let operation = asked.first;
    let mut left = asked.operations;
    let mut blocker = None;
    while left != 0 {
        let k = beside(operation, take_lowest(&mut left));
        match object.admission(t, k) {
            Admission::Free => return Answer::Reply(k),
            Admission::Blocked(u) => blocker = blocker.or(Some(u)),
            Admission::Illegal => {}
        }
    }
    busy_with(blocker)
}

/// The operations of a call that are looked at: of a number's call `value` the one with the number that t sees.
#[inline(always)]
fn asked_at<R: Recovery>(object: &R, t: u32, call: Call) -> Call
    requires { IsCall (R.meaning object.now).checked.file.table call }
    ensures inside { AreLookedAt (R.meaning object.now).checked.file.table result }
    ensures asked { IsAskedCall (R.meaning object.now) t call.first result }
{
    match object.declared().declaration() {
        Declaration::Table(file) => {
            // (read for its clause on what is known of a table)
            let _states = file.table.states();
            call
        }
        Declaration::Number(number) => {
            number_has_table();
            // (read for what is known of a number)
            let _calls = number.calls();
            if !number.reads_value(call.first.place()) {
                return call;
            }
            Call {
                first: number.called(call.first, object.view(t)),
                operations: call.operations,
            }
        }
    }
}

/// The operation at another place with the same amount.
pub(crate) fn beside(operation: Operation, place: u8) -> Operation
    ensures { result ≡ beside operation place }
{
    match operation.amount() {
        Some(n) => Operation::with(place, n),
        None => Operation::listed(place),
    }
}

/// `Busy` with who blocks, and `None` where nobody does.
pub fn busy_with(blocker: Option<u32>) -> Answer
    ensures { result ≡ busy_answer blocker }
{
    match blocker {
        Some(u) => Answer::Busy(u),
        None => Answer::None,
    }
}
