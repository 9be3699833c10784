ghost use Rattle.std.specs.Prelude.{◌≡◌};
ghost use Rattle.object_trait.specs.Admissions.{admitted_by};

/// What a transaction meets that asks for an operation.
#[derive(Clone, Copy, Debug, PartialEq, Eq)]
pub enum Admission {
    /// The operation isn't legal for it.
    Illegal,
    /// The operation is legal, and nobody keeps it from it.
    Free,
    /// The operation is legal, and this transaction keeps it from it.
    Blocked(u32),
}

/// What is legal is free where nobody keeps from it, and blocked by who does.
#[inline(always)]
pub fn admitted_by(keeper: Option<u32>) -> Admission
    ensures { result ≡ admitted_by keeper }
{
    match keeper {
        Some(u) => Admission::Blocked(u),
        None => Admission::Free,
    }
}
