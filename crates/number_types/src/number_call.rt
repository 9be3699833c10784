//! The calls of a number.

ghost use Rattle.std.specs.Prelude.{◌≡◌, true};
ghost use Rattle.number_types.specs.Calls.{amount_of, is_amount};

/// A call of a number, as a line of its file lists it or a name asks for it. Each but `Value` is two operations.
#[derive(Clone, Copy)]
pub enum NumberCall {
    /// `take K`: takes K, or is short of it.
    Take(u32),
    /// `take any`: takes what the call says.
    TakeAny,
    /// `give K`: gives K, or finds the number too full for it.
    Give(u32),
    /// `give any`: gives what the call says.
    GiveAny,
    /// `atleast K`: whether there is as much as K.
    AtLeast(u32),
    /// `value`: what the number is.
    Value,
}

impl NumberCall {
    /// The amount that it lists, and 0 where it lists none.
    pub fn amount(self) -> u32
        ensures { result ≡ amount_of self }
    {
        match self {
            NumberCall::Take(k) | NumberCall::Give(k) | NumberCall::AtLeast(k) => k,
            NumberCall::TakeAny | NumberCall::GiveAny | NumberCall::Value => 0,
        }
    }

    /// Whether it is the same call as another.
    fn is_same(self, other: NumberCall) -> bool
        ensures { result ≡ true → self ≡ other }
    {
        match (self, other) {
            (NumberCall::Take(k), NumberCall::Take(j)) => k == j,
            (NumberCall::TakeAny, NumberCall::TakeAny) => true,
            (NumberCall::Give(k), NumberCall::Give(j)) => k == j,
            (NumberCall::GiveAny, NumberCall::GiveAny) => true,
            (NumberCall::AtLeast(k), NumberCall::AtLeast(j)) => k == j,
            (NumberCall::Value, NumberCall::Value) => true,
            _ => false,
        }
    }
}

/// Whether an amount is 1 to the greatest value.
pub fn is_amount(max: u32, k: u32) -> bool
    ensures { result ≡ is_amount max k }
{
    1 <= k && k <= max
}

/// Whether calls are the same as others.
pub fn are_same(calls: &[NumberCall], others: &[NumberCall]) -> bool
    ensures { result ≡ true → calls.now ≡ others.now }
{
    if calls.len() != others.len() {
        return false;
    }
    for i in 0..calls.len() {
        if !calls[i].is_same(others[i]) {
            return false;
        }
    }
    true
}
