//! Where the histories of epochs are kept that are over.

ghost use Rattle.std.specs.Prelude.{◌≡◌, false, List, Option, None, OnErr, OnOk};
ghost use Rattle.serving.specs.Archives.{KeepsText, KeptHistory, MayKeepText};

use journal::Header;
use std::alloc::AllocError;
use thiserror::Error;

/// Why an archive didn't keep a history.
#[derive(Clone, Copy, Debug, PartialEq, Eq, Error)]
pub enum ArchiveFault {
    /// It couldn't be written, or not be made durable.
    #[error("the archive failed")]
    Device,
    /// A history of this store and this life is there already.
    #[error("the archive has a history of this life")]
    Taken,
    /// Memory was refused.
    #[error("no memory")]
    NoMemory,
}

impl From<AllocError> for ArchiveFault {
    ghost from_gives = { λ _ _. Unit {0} };

    fn from(_: AllocError) -> ArchiveFault {
        ArchiveFault::NoMemory
    }
}

/// An archive, which keeps the histories of epochs as texts.
pub trait Archive {
    // The histories that it keeps, oldest first, of which no crash takes one away, where it says which.
    ghost kept: { Self → Option (List KeptHistory) };

    /// Whether it is to be given any.
    fn wants(&self) -> bool
        ensures { result ≡ false → kept self.now ≡ None };

    /// Keeps the text of a history, under the id of its store and the life in which its epoch ended, which its file says: at
    /// `Ok` no crash takes it away. No life of a store comes twice.
    ///
    /// # Errors
    ///
    /// What stopped it. The whole text is kept, or nothing of it.
    fn keep(&mut self, header: &Header, text: &[u8]) -> Result<(), ArchiveFault>
        ensures kept { OnOk result (KeepsText (kept self.old) (kept self.new) header.now text.now) }
        ensures part { OnErr result (MayKeepText (kept self.old) (kept self.new) header.now text.now) };
}

/// No archive: the histories of epochs that are over are let go.
#[derive(Clone, Copy)]
pub struct NoArchive;

impl Archive for NoArchive {
    ghost kept = { λ _. None };

    fn wants(&self) -> bool {
        false
    }

    fn keep(&mut self, _header: &Header, _text: &[u8]) -> Result<(), ArchiveFault> {
        Ok(())
    }
}
