//! Which operation has which number, and its bounds.

ghost use Rattle.std.specs.Prelude.{◌≡◌, ◌<◌, ◌∷◌, [], true, Some, None, if◌then◌else◌, length, slice_get, is_some, IfSome};
ghost use Rattle.std.specs.List.{list_any};
ghost use Rattle.type_table.specs.Table.{has_op};
ghost use Rattle.number_types.specs.Calls.{is_amount, is_within};
ghost use Rattle.number_types.specs.Operations.{takes, gives, where_so, taking, giving, reading, amount_for, ops_of_call, is_elsewhere, op_at, op_in, op_done, bounds_or_none, number_ops, number_bounds, number_table, IsAmountFor};

use crate::number_call::NumberCall;
use crate::number_file::NumberFile;
use crate::number_op::NumberOp;
use escrow_laws::Bounded;
use type_table::{Op, Operation};

impl NumberFile {
    /// The operation that has this number, where one has it.
    pub fn op_at(&self, k: Operation) -> Option<NumberOp>
        ensures { result ≡ op_at self.now k }
    {
        let call = *self.calls().get(usize::from(k.place() / 2))?;
        let amount = self.amount_for(call, k.amount())?;
        op_of_call(call, k.place() % 2, amount)
    }

    /// Whether another line lists the amount that a line's call is told.
    fn is_elsewhere(&self, told: Option<u32>, call: NumberCall) -> bool
        ensures { result ≡ is_elsewhere self.now told call }
    {
        match (call, told) {
            (NumberCall::TakeAny, Some(n)) => self.takes(n),
            (NumberCall::GiveAny, Some(n)) => self.gives(n),
            _ => false,
        }
    }

    /// The amount of a call, which is told one or none.
    fn amount_for(&self, call: NumberCall, told: Option<u32>) -> Option<u32>
        ensures { result ≡ amount_for self.now.max call told }
    {
        match (call, told) {
            (NumberCall::Take(k) | NumberCall::Give(k) | NumberCall::AtLeast(k), None) => Some(k),
            (NumberCall::TakeAny | NumberCall::GiveAny, Some(n)) => where_so(self.is_amount(n), n),
            (NumberCall::Value, Some(n)) => where_so(n <= self.max(), n),
            _ => None,
        }
    }

    fn is_amount(&self, n: u32) -> bool
        ensures { result ≡ is_amount self.now.max n }
    {
        1 <= n && n <= self.max()
    }

    /// Whether a line takes this amount.
    fn takes(&self, n: u32) -> bool
        ensures { result ≡ list_any (takes n) self.now.calls }
    {
        self.calls().iter().any(|call| takes(n, *call))
    }

    /// Whether a line gives this amount.
    fn gives(&self, n: u32) -> bool
        ensures { result ≡ list_any (gives n) self.now.calls }
    {
        self.calls().iter().any(|call| gives(n, *call))
    }

    /// The bounds of the operation that is done with this number; where none is, they are legal nowhere.
    pub fn bounded(&self, k: Operation) -> Bounded
        requires { k < length (number_ops self.now) }
        ensures { slice_get (number_bounds self.now) k ≡ Some result }
    {
        self.done(k)
    }

    /// The same of any number.
    pub(crate) fn done(&self, k: Operation) -> Bounded
        ensures { result ≡ bounds_or_none self.now.max (op_done self.now k) }
    {
        match self.calls().get(usize::from(k.place() / 2)) {
            Some(call) => self.done_by(*call, k.place() % 2, k.amount()),
            None => Bounded::nowhere(),
        }
    }

    /// The bounds of the first or the second operation of a line's call, which is told an amount or none. One of
    /// `any` whose amount another line lists is that line's.
    fn done_by(&self, call: NumberCall, second: u8, told: Option<u32>) -> Bounded
        requires within { is_within self.now.max call ≡ true }
        requires second { second < 2 }
        ensures { result ≡ bounds_or_none self.now.max (if is_elsewhere self.now told call then None else op_in self.now.max second told call) }
    {
        if self.is_elsewhere(told, call) {
            return Bounded::nowhere();
        }
        match self.amount_for(call, told) {
            Some(n) => bounds_of(call, second, n, self.max()),
            None => Bounded::nowhere(),
        }
    }

    /// Whether an operation has this number.
    pub fn has_op(&self, k: Operation) -> bool
        ensures { result ≡ has_op (number_table self.now) k }
    {
        // (read for what is known of a number)
        let _calls = self.calls();
        self.op_at(k).is_some()
    }

    /// The call and the reply of the operation that has this number, where one has it.
    pub fn op(&self, k: Operation) -> Option<Op>
        ensures there { is_some result ≡ has_op (number_table self.now) k }
        ensures exact { IfSome result (λ op. slice_get (number_ops self.now) k ≡ Some op) }
    {
        // (read for what is known of a number)
        let _calls = self.calls();
        let op = self.op_at(k)?;
        Some(op.names())
    }
}

fn takes(n: u32, call: NumberCall) -> bool
    ensures { result ≡ takes n call }
{
    match call {
        NumberCall::Take(k) => k == n,
        _ => false,
    }
}

fn gives(n: u32, call: NumberCall) -> bool
    ensures { result ≡ gives n call }
{
    match call {
        NumberCall::Give(k) => k == n,
        _ => false,
    }
}

fn where_so(so: bool, n: u32) -> Option<u32>
    ensures { result ≡ where_so so n }
{
    if so { Some(n) } else { None }
}

/// The first or the second operation of a call with an amount.
fn op_of_call(call: NumberCall, second: u8, n: u32) -> Option<NumberOp>
    requires { second < 2 }
    ensures { result ≡ slice_get (ops_of_call call n) second }
{
    match call {
        NumberCall::Take(_) | NumberCall::TakeAny => one_of(
            second,
            NumberOp::Take(n),
            NumberOp::Short(n),
        ),
        NumberCall::Give(_) | NumberCall::GiveAny => one_of(
            second,
            NumberOp::Give(n),
            NumberOp::Full(n),
        ),
        NumberCall::AtLeast(_) => one_of(second, NumberOp::AtLeast(n), NumberOp::Below(n)),
        NumberCall::Value => first_of(second, NumberOp::Value(n)),
    }
}

/// The first or the second of two.
fn one_of(second: u8, first: NumberOp, other: NumberOp) -> Option<NumberOp>
    requires { second < 2 }
    ensures { result ≡ slice_get (first ∷ other ∷ []) second }
{
    if second == 0 {
        Some(first)
    } else {
        Some(other)
    }
}

/// The only one, as the first.
fn first_of(second: u8, only: NumberOp) -> Option<NumberOp>
    ensures { result ≡ slice_get (only ∷ []) second }
{
    if second == 0 { Some(only) } else { None }
}

/// The bounds of the first or the second operation of a call with an amount, on numbers from 0 to `max`.
fn bounds_of(call: NumberCall, second: u8, n: u32, max: u32) -> Bounded
    requires amount { IsAmountFor max call n }
    requires second { second < 2 }
    ensures { result ≡ bounds_or_none max (slice_get (ops_of_call call n) second) }
{
    match (call, second) {
        (NumberCall::Take(_) | NumberCall::TakeAny, 0) => taking(n, max, n),
        (NumberCall::Give(_) | NumberCall::GiveAny, 0) => giving(0, max - n, n),
        (NumberCall::Give(_) | NumberCall::GiveAny, _) => reading(max - n + 1, max),
        (NumberCall::AtLeast(_), 0) => reading(n, max),
        (NumberCall::Take(_) | NumberCall::TakeAny | NumberCall::AtLeast(_), _) => {
            reading(0, n - 1)
        }
        (NumberCall::Value, 0) => reading(n, n),
        (NumberCall::Value, _) => Bounded::nowhere(),
    }
}

/// An operation that takes an amount.
fn taking(low: u32, high: u32, amount: u32) -> Bounded
    ensures { result ≡ taking low high amount }
{
    Bounded {
        low,
        high,
        gives: 0,
        takes: amount,
    }
}

/// One that gives an amount.
fn giving(low: u32, high: u32, amount: u32) -> Bounded
    ensures { result ≡ giving low high amount }
{
    Bounded {
        low,
        high,
        gives: amount,
        takes: 0,
    }
}

/// One that moves nothing.
fn reading(low: u32, high: u32) -> Bounded
    ensures { result ≡ reading low high }
{
    Bounded {
        low,
        high,
        gives: 0,
        takes: 0,
    }
}
