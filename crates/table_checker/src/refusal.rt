use thiserror::Error;

/// Why the checker refuses a file. Where several hold, the first in the order of this list is
/// answered, with its first place in ascending order.
#[derive(Clone, Copy, Debug, PartialEq, Eq, Error)]
pub enum CheckRefusal {
    /// The initial state isn't in the file's set.
    #[error("InitialOutside")]
    InitialOutside,
    /// State s is in the set, and its next state under operation k isn't.
    #[error("NotClosed {s} {k}")]
    NotClosed { s: u16, k: u8 },
    /// The relation holds (s, t), and operation k is legal in s, and is illegal in t or leads to a
    /// pair outside the relation.
    #[error("NotSimulation {s} {t} {k}")]
    NotSimulation { s: u16, t: u16, k: u8 },
    /// The pair of a requested operation p and a held one q is outside the conflict table, s is in
    /// the set, and the pair's condition fails at s.
    #[error("NotCommuting {p} {q} {s}")]
    NotCommuting { p: u8, q: u8, s: u16 },
    /// For escrow: operation k is at fault in state s. It is illegal there, and legal in a lower and in a
    /// higher state; or it is legal there, and moves it otherwise than it moves the least state in which
    /// it is legal.
    #[error("NotNumeric {k} {s}")]
    NotNumeric { k: u8, s: u16 },
}
