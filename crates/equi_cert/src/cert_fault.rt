use thiserror::Error;

/// Why a relation is no simulation: the first pair (s, t) and operation k, in ascending order, where
/// the pair is in the relation, k is legal in s, and k is illegal in t or leads outside the relation.
#[derive(Clone, Copy, Debug, PartialEq, Eq, Error)]
#[error("NotSimulation {s} {t} {k}")]
pub struct CertFault {
    /// The first state of the pair.
    pub s: u16,
    /// The second state of the pair.
    pub t: u16,
    /// The operation.
    pub k: u8,
}
