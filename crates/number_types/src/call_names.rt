//! Which operation the name of a call asks for.

ghost use Rattle.std.specs.Prelude.{◌≡◌, ◌↔◌, ℕ, Option, Some, true, ◌≤◌, ◌++◌};
ghost use Rattle.std.specs.Fmt.{decimal};
ghost use Rattle.std.specs.List.{position};
ghost use Rattle.type_table.specs.Operation.{operation_at};
ghost use Rattle.type_table.specs.Table.{call_of, first_op};
ghost use Rattle.number_types.specs.Calls.{most_number};
ghost use Rattle.number_types.specs.Operations.{number_table, row_name};
ghost use Rattle.number_types.specs.Named.{IsNamed, MayBeAsked, IsFirstFor, answers, told};

use crate::number_call::{NumberCall, is_amount};
use crate::number_file::NumberFile;
use decimals::long_number_of;
use type_table::Operation;

impl NumberFile {
    /// The first operation of the call with this name, where the number has such a call. It takes no memory.
    ///
    /// That of an amount that a line lists has the place of this line. That of any other amount has the place
    /// of `take any` or `give any`, and the amount. That of `value` has the amount 0.
    pub fn first_op(&self, name: &[u8]) -> Option<Operation>
        ensures { result ≡ first_op (number_table self.now) name.now }
    {
        if name.is_empty() {
            return None;
        }
        // (read for what is known of a number)
        let _calls = self.calls();
        let call = call_named(name)?;
        self.first_for(call)
    }

    /// Whether an operation is the first of its call, so that its number is the call's.
    pub fn is_first(&self, c: Operation) -> bool
        ensures { (result ≡ true) ↔ (first_op (number_table self.now) (call_of (number_table self.now) c) ≡ Some c) }
    {
        // (read for what is known of a number)
        let _calls = self.calls();
        match self.op_at(c) {
            Some(op) => self.is_first_for(op.call(), c),
            None => false,
        }
    }

    /// Whether this is the first operation that answers a call.
    fn is_first_for(&self, call: NumberCall, c: Operation) -> bool
        ensures { (k : Option ℕ) × IsFirstFor self.now call k × ((result ≡ true) ↔ (k ≡ Some c)) }
    {
        match self.first_for(call) {
            Some(first) => first == c,
            None => false,
        }
    }

    /// The first operation that answers a call.
    fn first_for(&self, call: NumberCall) -> Option<Operation>
        ensures { IsFirstFor self.now call result }
    {
        let calls = self.calls();
        let line = self.line_for(call)?;
        Some(first_at(2 * line as u8, calls[line], call.amount()))
    }

    /// The first line whose call answers this one.
    fn line_for(&self, call: NumberCall) -> Option<usize>
        ensures { result ≡ position (answers self.now.max call) self.now.calls }
    {
        let max = self.max();
        self.calls()
            .iter()
            .position(|line| answers(max, call, *line))
    }
}

/// The call that a name asks for.
fn call_named(name: &[u8]) -> Option<NumberCall>
    ensures { IsNamed MayBeAsked row_name name.now result }
{
    if name == b"value".as_slice() {
        return Some(NumberCall::Value);
    }
    if let Some(n) = amount_after(b"take:", name) {
        return Some(NumberCall::Take(n));
    }
    if let Some(n) = amount_after(b"give:", name) {
        return Some(NumberCall::Give(n));
    }
    let n = amount_after(b"atleast:", name)?;
    Some(NumberCall::AtLeast(n))
}

/// The amount that a name has after a word.
fn amount_after(word: &[u8], name: &[u8]) -> Option<u32>
    ensures { IsNamed (λ n. n ≤ most_number) (λ n. word.now ++ decimal n) name.now result }
{
    let digits = name.strip_prefix(word)?;
    amount_of(digits)
}

/// The amount of 32 bits that digits are, without a leading zero.
fn amount_of(digits: &[u8]) -> Option<u32>
    ensures { IsNamed (λ n. n ≤ most_number) decimal digits.now result }
{
    let number = long_number_of(digits)?;
    u32::try_from(number).ok()
}

/// Whether a line's call answers a call.
fn answers(max: u32, call: NumberCall, line: NumberCall) -> bool
    ensures { result ≡ answers max call line }
{
    match (call, line) {
        (NumberCall::Take(n), NumberCall::Take(k)) => k == n,
        (NumberCall::Take(n), NumberCall::TakeAny) => is_amount(max, n),
        (NumberCall::Give(n), NumberCall::Give(k)) => k == n,
        (NumberCall::Give(n), NumberCall::GiveAny) => is_amount(max, n),
        (NumberCall::AtLeast(n), NumberCall::AtLeast(k)) => k == n,
        (NumberCall::Value, NumberCall::Value) => true,
        _ => false,
    }
}

/// The first operation of a line's call, with an amount where the line lists none.
fn first_at(place: u8, line: NumberCall, n: u32) -> Operation
    ensures { result ≡ operation_at place (told line n) }
{
    match line {
        NumberCall::Take(_) | NumberCall::Give(_) | NumberCall::AtLeast(_) => {
            Operation::listed(place)
        }
        NumberCall::TakeAny | NumberCall::GiveAny | NumberCall::Value => Operation::with(place, n),
    }
}
