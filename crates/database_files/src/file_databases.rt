//! The databases in the system's files.

ghost use Rattle.std.specs.Prelude.{None};

use crate::databases::Databases;
use crate::faults::fault_of_system;
use crate::files::{ChosenFile, create_files, files_left, moved_files, open_files};
use crate::new_files::{publish_new, remove_new};
use crate::open_fault::OpenFault;
use crate::torn_writes::TornWrites;
use command_files::DatabaseFault;
use sqlite::{FileStore, Unknown};
use std::fs::File;
use std::io;
use std::io::Read;

/// The databases in the files that a runtime reaches.
#[derive(Drop)]
pub struct FileDatabases<'a> {
    pub runtime: &'a HostRuntime,
}

impl Databases for FileDatabases<'_> {
    type Opened = FileStore<ChosenFile<Unknown>>;

    ghost holds = { λ _ _. None };

    ghost is_clean = { λ _. ⊥ };

    fn open(&mut self, path: &str, torn: TornWrites) -> Result<Self::Opened, OpenFault> {
        open_files(self.runtime, path, Unknown, torn)
    }

    fn create(&mut self, path: &str) -> Result<Self::Opened, DatabaseFault> {
        create_files(self.runtime, path, Unknown)
    }

    fn id(&mut self) -> Result<[u8; 16], DatabaseFault> {
        match random_bytes(self.runtime) {
            Ok(bytes) => Ok(bytes),
            Err(error) => Err(fault_of_system(error)),
        }
    }

    /// What was committed is moved from the log into the file first, which is put at the path alone. The file is held
    /// until its other name is gone.
    fn publish(&mut self, path: &str, trees: Self::Opened) -> Result<(), DatabaseFault> {
        let (moved, _held) = moved_files(trees);
        let published = publish_moved(self.runtime, path, moved);
        remove_new(self.runtime, path);
        published
    }

    fn discard(&mut self, path: &str, trees: Self::Opened) {
        let _held = files_left(trees);
        remove_new(self.runtime, path);
    }

    /// What was committed is moved from the log into the file, so that a store at rest needs no log. Where that fails it
    /// stays in the log, from which an open takes it.
    fn close(&mut self, _path: &str, trees: Self::Opened) {
        let _ = moved_files(trees);
    }

    /// The files are let go of with no call of them but the one that closes each.
    fn leave(&mut self, _path: &str, trees: Self::Opened) {
        let _ = files_left(trees);
    }
}

/// Puts the file that was made for a path at it, where all that was committed is in it.
fn publish_moved(
    rt: &HostRuntime,
    path: &str,
    moved: Result<(), DatabaseFault>,
) -> Result<(), DatabaseFault> {
    moved?;
    publish_new(rt, path)
}

/// Bytes of the system's source of random ones.
fn random_bytes(rt: &HostRuntime) -> io::Result<[u8; 16]> {
    let mut bytes = [0u8; 16];
    let mut source = File::open(rt, "/dev/urandom")?;
    source.read_exact(&mut bytes)?;
    Ok(bytes)
}
