//! What a torn write is supposed to leave.

/// What a write that was under way when the machine stopped is supposed to have left in its range.
#[derive(Clone, Copy, Debug, PartialEq, Eq)]
pub enum TornWrites {
    /// Any bytes: each commit is synced twice.
    AnyBytes,
    /// Each byte is the old one or the one that was written: most commits are synced once.
    OldOrNew,
}

impl TornWrites {
    ghost use Rattle.std.specs.Prelude.{◌≡◌};
    ghost use Rattle.database_files.specs.TornWrites.{is_old_or_new};

    /// Whether each byte is supposed to be the old one or the one that was written.
    pub(crate) fn is_old_or_new(self) -> bool
        ensures { result ≡ is_old_or_new self }
    {
        match self {
            TornWrites::AnyBytes => false,
            TornWrites::OldOrNew => true,
        }
    }
}
