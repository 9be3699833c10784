ghost use Rattle.std.specs.Prelude.{◌≡◌, Some, None, nat_eq};
ghost use Rattle.std.specs.Cmp.{partial_equiv_from_equiv};
ghost use Rattle.std.proofs.lemmas.Cmp.{nat_eq_equiv};
ghost use Rattle.type_table.specs.Operation.{operation_at, place_of, amount_of};

use std::fmt;
use std::marker::Model;

/// An operation of a type: its place among those that the type lists, and its amount, where the call at
/// that place takes any.
///
/// Contracts see its number: without an amount its place, and with the amount n 256 * (n + 1) more.
#[derive(Clone, Copy)]
pub struct Operation {
    place: u8,
    // Whether there is an amount, and its bytes: in place of an `Option<u32>`, so that an event has twenty.
    counted: bool,
    amount: [u8; 4],
}

impl Model for Operation {
    ghost use Rattle.std.specs.Prelude.{◌≡◌, ℕ, ◌<◌, false, is_some, length, get_or, unwrap_or};
    ghost use Rattle.std.specs.Int.{w32, from_le_bytes, to_le_bytes};
    ghost use Rattle.type_table.specs.Operation.{operation_at, place_of, amount_of, counted_amount, place-of-operation, counted-of-operation, bytes-of-counted};

    ghost Value = { ℕ };

    ghost view = { λ a. operation_at a.place (counted_amount a.counted (from_le_bytes w32 a.amount)) };

    ghost invariant = { λ a. (a.place < 256) × (length a.amount ≡ 4) × ((i : ℕ) → get_or a.amount i 0 < 256) × (a.counted ≡ false → from_le_bytes w32 a.amount ≡ 0) };

    ghost inverse = { λ p. record { place = place_of p; counted = is_some (amount_of p); amount = to_le_bytes w32 (unwrap_or (amount_of p) 0) } };

    ghost inverse_ok = { λ a h i. record {
      place = place-of-operation a.place (counted_amount a.counted (from_le_bytes w32 a.amount)) h.0 i;
      counted = counted-of-operation a.place a.counted (from_le_bytes w32 a.amount) h.0 i;
      amount = bytes-of-counted a.place a.counted a.amount h.0 h.1 h.2 h.3 i;
    } };
}

/// Operations are equal where their numbers are.
impl PartialEq for Operation {
    ghost eq = { nat_eq };

    ghost laws = { partial_equiv_from_equiv nat_eq_equiv };

    fn eq(&self, other: &Operation) -> bool {
        self.place == other.place && self.amount() == other.amount()
    }
}

impl Eq for Operation {
    ghost laws = { nat_eq_equiv };
}

/// Its place and its amount, as `Operation { place: 2, amount: Some(7) }`.
impl fmt::Debug for Operation {
    fn fmt<W: fmt::Write>(&self, f: &mut fmt::Formatter<W>) -> fmt::Result {
        f.debug_struct("Operation")
            .field("place", &self.place)
            .field("amount", &self.amount())
            .finish()
    }
}

impl Operation {
    /// The operation at a place.
    pub fn listed(place: u8) -> Operation
        ensures { result ≡ place }
    {
        Operation {
            place,
            counted: false,
            amount: [0; 4],
        }
    }

    /// The operation at a place with an amount.
    pub fn with(place: u8, amount: u32) -> Operation
        ensures { result ≡ operation_at place (Some amount) }
    {
        Operation {
            place,
            counted: true,
            amount: amount.to_le_bytes(),
        }
    }

    /// Its place.
    pub fn place(self) -> u8
        ensures exact { result ≡ place_of self }
    {
        self.place
    }

    /// Its amount, where it has one.
    pub fn amount(self) -> Option<u32>
        ensures exact { result ≡ amount_of self }
        ensures whole { self ≡ operation_at (place_of self) result }
    {
        self.counted.then_some(u32::from_le_bytes(self.amount))
    }
}
