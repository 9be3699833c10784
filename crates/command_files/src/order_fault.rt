use thiserror::Error;

/// Why the committed transactions of a history may not be asked for in an order.
#[derive(Clone, Copy, Debug, PartialEq, Eq, Error)]
pub enum OrderFault {
    /// It didn't commit.
    #[error("{t} not committed")]
    NotCommitted { t: u32 },
    /// It is there twice.
    #[error("{t} twice")]
    Twice { t: u32 },
    /// It isn't there.
    #[error("{t} missing")]
    Missing { t: u32 },
    /// The first comes after the second, which it precedes.
    #[error("{t} precedes {u}")]
    Precedes { t: u32, u: u32 },
}
