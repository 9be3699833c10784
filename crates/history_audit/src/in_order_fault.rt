//! Why an audit in a given order has no yes.

ghost use Rattle.std.specs.Prelude.{◌≡◌};
ghost use Rattle.history_audit.specs.declared.in_order_fault.InOrderFault.TheVariants.{Audit};
ghost use Rattle.history_judge.specs.declared.outcome.AuditFault.TheVariants.{NoMemory};

use history_judge::AuditFault;
use std::alloc::{AllocError, AllocFailed};

/// Why an order of transactions may not be asked for.
#[derive(Clone, Copy, Debug, PartialEq, Eq)]
pub enum OrderFault {
    /// The first that isn't one of the committed transactions, each once: it didn't commit.
    NotCommitted { t: u32 },
    /// The first such one: it is there before too.
    Twice { t: u32 },
    /// The least committed transaction that isn't there.
    Missing { t: u32 },
    /// After t's commit u executed an operation that survives, and t comes after u. This u is the first, and for
    /// it t is the least.
    Precedes { t: u32, u: u32 },
}

/// Why an audit in a given order has no yes.
#[derive(Clone, Copy, Debug, PartialEq, Eq)]
pub enum InOrderFault {
    /// The events are no history, or the order isn't legal: places of transactions are those in this order.
    Audit(AuditFault),
    /// The events are a history, whose committed transactions may not be asked for in this order.
    Order(OrderFault),
}

impl From<AllocError> for InOrderFault {
    ghost from_gives = { λ _ fault. fault ≡ Audit NoMemory };

    fn from(_error: AllocError) -> InOrderFault {
        InOrderFault::Audit(AuditFault::NoMemory)
    }
}

impl<T: Drop> From<AllocFailed<T>> for InOrderFault {
    ghost from_gives = { λ _ fault. fault ≡ Audit NoMemory };

    fn from(_error: AllocFailed<T>) -> InOrderFault {
        InOrderFault::Audit(AuditFault::NoMemory)
    }
}
