ghost use Rattle.std.specs.Prelude.{◌≡◌, ◌<◌, ◌≤◌, Some, None};

use std::marker::Model;

/// The number of an object of a store, 0 to 65,535, in two bytes.
///
/// Contracts see the number.
#[derive(Clone, Copy)]
pub struct ObjectIndex {
    number: u16,
}

impl Model for ObjectIndex {
    ghost use Rattle.std.specs.Prelude.{ℕ, ◌<◌};

    ghost Value = { ℕ };

    ghost view = { λ a. a.number };

    ghost invariant = { λ a. a.number < 65536 };

    ghost inverse = { λ n. record { number = n } };
}

/// The first object, with which a small vector fills its free places.
impl Default for ObjectIndex {
    ghost is_default = { λ x. x ≡ 0 };

    fn default() -> ObjectIndex {
        ObjectIndex { number: 0 }
    }
}

impl ObjectIndex {
    /// The object with this number, if a store may have one.
    #[inline(always)]
    pub fn new(number: u32) -> Option<ObjectIndex>
        ensures some { number < 65536 → result ≡ Some number }
        ensures none { 65536 ≤ number → result ≡ None }
    {
        if number > u16::MAX as u32 {
            return None;
        }
        Some(ObjectIndex {
            number: number as u16,
        })
    }

    /// The object with this number, which a store may have.
    #[inline(always)]
    pub fn of(number: u32) -> ObjectIndex
        requires { number < 65536 }
        ensures { result ≡ number }
    {
        ObjectIndex {
            number: number as u16,
        }
    }

    /// Its number.
    #[inline(always)]
    pub fn number(self) -> u32
        ensures exact { result ≡ self }
        ensures few { result < 65536 }
    {
        self.number as u32
    }
}
