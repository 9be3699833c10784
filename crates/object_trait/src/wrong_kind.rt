use thiserror::Error;

/// The checked type is for another kind of recovery.
#[derive(Clone, Copy, Debug, PartialEq, Eq, Error)]
#[error("WrongKind")]
pub struct WrongKind;
