//! Where the program's input files come from.
ghost use Rattle.std.specs.Prelude.{◌≡◌, ℕ, List, Option, None, IfOk, IfSome, IsErrOf};
ghost use Rattle.std.specs.IoError.{error_kind};
ghost use Rattle.command_files.specs.Source.{source_fault};
ghost use Rattle.command_files.specs.declared.source.SourceFault.TheVariants.{CannotRead};

use std::rt::Files;
use std::{fs, io};
use thiserror::Error;

/// Why a file's bytes aren't there.
#[derive(Clone, Copy, Debug, PartialEq, Eq, Error)]
pub enum SourceFault {
    /// The path names nothing that can be read, or a read of it failed.
    #[error("cannot read")]
    CannotRead,
    /// A growth was refused.
    #[error("no memory")]
    NoMemory,
}

impl From<io::Error> for SourceFault {
    ghost from_gives = { λ error fault. fault ≡ source_fault (error_kind error) };

    fn from(error: io::Error) -> SourceFault {
        match error.kind() {
            io::ErrorKind::OutOfMemory => SourceFault::NoMemory,
            _ => SourceFault::CannotRead,
        }
    }
}

/// What gives the bytes of a file by its path.
pub trait Source {
    /// What is held at a path, where the source says it; a source over the system's files doesn't.
    ghost holds: { Self → List ℕ → Option (List ℕ) } = { λ _ _. None };

    /// All bytes of the file.
    fn bytes(&mut self, path: &str) -> Result<Vec<u8>, SourceFault>
        ensures held { IfOk result (λ bytes.
            IfSome (holds self.old path.now) (λ content. bytes.items ≡ content)) }
        ensures missing { IsErrOf result SourceFault.CannotRead → holds self.old path.now ≡ None }
        ensures kept { (other : List ℕ) → holds self.new other ≡ holds self.old other };
}

/// The files that a runtime reaches.
#[derive(Drop)]
pub struct FileSource<'a, R> {
    pub runtime: &'a R,
}

impl<R: Files + AllocGlobal> Source for FileSource<'_, R> {
    fn bytes(&mut self, path: &str) -> Result<Vec<u8>, SourceFault> {
        Ok(fs::read(self.runtime, path)?)
    }
}
