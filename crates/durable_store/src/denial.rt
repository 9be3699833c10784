//! Why a command of a transaction isn't done.

ghost use Rattle.std.specs.Prelude.{◌≡◌};
ghost use Rattle.durable_store.specs.Held.{as_denied};

use serial_order::Refusal;

/// Why a command of a transaction isn't done. Nothing has changed.
#[derive(Clone, Copy, Debug, PartialEq, Eq)]
pub enum Denial {
    /// The transaction is prepared: only a decision ends it.
    Prepared,
    /// The store refuses it.
    Refused(Refusal),
}

/// What the store answered, where its refusal is a denial.
pub(crate) fn unless_refused<T: Drop>(answered: Result<T, Refusal>) -> Result<T, Denial>
    ensures { result ≡ as_denied answered }
{
    match answered {
        Ok(it) => Ok(it),
        Err(refusal) => Err(Denial::Refused(refusal)),
    }
}
