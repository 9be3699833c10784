/// An operation on a number: legal from `low` to `high`, and then it gives and takes these amounts.
#[derive(Clone, Copy, Debug, PartialEq, Eq)]
pub struct Bounded {
    pub low: u32,
    pub high: u32,
    pub gives: u32,
    pub takes: u32,
}

impl Bounded {
    ghost use Rattle.std.specs.Prelude.{◌≡◌};
    ghost use Rattle.escrow_laws.specs.Bounds.{nowhere};

    /// One that is legal nowhere: from 1 to 0.
    pub fn nowhere() -> Bounded
        ensures { result ≡ nowhere }
    {
        Bounded {
            low: 1,
            high: 0,
            gives: 0,
            takes: 0,
        }
    }
}
