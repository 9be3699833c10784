//! Archives in folders of the system: each history is a file of its own.

ghost use Rattle.std.specs.Prelude.{◌≡◌, List, ℕ, None, Option, IfOk};
ghost use Rattle.std.specs.Option.{option_map};
ghost use Rattle.serving.specs.Archives.{KeptHistory};

use journal::Header;
use serving::{Archive, ArchiveFault};
use std::alloc::AllocError;
use std::fs::File;
use std::io::Write;
use std::{fs, io};

/// What gives archives by their folders.
pub trait Archives {
    /// An archive.
    type Kept: Archive + Drop;

    // The histories that the archive in a folder keeps, oldest first, where it is known; and those of the one without a folder.
    ghost kept_in: { Self → Option (List ℕ) → Option (List KeptHistory) };

    /// The archive in a folder, and without one an archive that keeps no history.
    ///
    /// # Errors
    ///
    /// `Device` where nothing can be kept in the folder, or `NoMemory`.
    fn open(&mut self, folder: Option<&str>) -> Result<Self::Kept, ArchiveFault>
        ensures { IfOk result (λ a. Self.Kept.kept a ≡ kept_in self.old (option_map (λ f. f.now) folder.entry)) };

    /// Takes back the archive that was opened in a folder.
    fn close(&mut self, folder: Option<&str>, archive: Self::Kept)
        ensures { kept_in self.new (option_map (λ f. f.now) folder.entry) ≡ Self.Kept.kept archive };
}

/// The archives in the folders that a runtime reaches.
#[derive(Drop)]
pub struct FolderArchives<'a> {
    pub runtime: &'a HostRuntime,
}

impl<'a> Archives for FolderArchives<'a> {
    type Kept = FolderArchive<'a>;

    ghost kept_in = { λ _ _. None };

    fn open(&mut self, folder: Option<&str>) -> Result<FolderArchive<'a>, ArchiveFault> {
        let folder = match folder {
            Some(folder) => Some(checked_folder(self.runtime, folder)?),
            None => None,
        };
        Ok(FolderArchive {
            runtime: self.runtime,
            folder,
        })
    }

    fn close(&mut self, _folder: Option<&str>, _archive: FolderArchive<'a>) {}
}

/// The path of a folder in which a file can be made and brought to the disk.
///
/// # Errors
///
/// `Device` where it can't, or `NoMemory`.
fn checked_folder(rt: &HostRuntime, folder: &str) -> Result<String, ArchiveFault> {
    let path = String::from_str(rt.alloc(), folder)?;
    match try_folder(rt, folder) {
        Ok(()) => Ok(path),
        Err(error) => Err(fault_of(error)),
    }
}

/// Makes a file in a folder, and removes it.
fn try_folder(rt: &HostRuntime, folder: &str) -> io::Result<()> {
    let probe = format!(in rt.alloc(); "{folder}/colock.part")?;
    File::create(rt, probe.as_str())?;
    fs::remove_file(rt, probe.as_str())?;
    File::open(rt, folder)?.sync_all()
}

/// A folder that keeps each history as a file of its own, named by its store's id and its life: `ID-LIFE.history`. Where
/// there is no folder it keeps none.
#[derive(Drop)]
pub struct FolderArchive<'a> {
    runtime: &'a HostRuntime,
    folder: Option<String>,
}

impl Archive for FolderArchive<'_> {
    ghost kept = { λ _. None };

    fn wants(&self) -> bool {
        self.folder.is_some()
    }

    fn keep(&mut self, header: &Header, text: &[u8]) -> Result<(), ArchiveFault> {
        match &self.folder {
            Some(folder) => keep_in(self.runtime, folder.as_str(), header, text),
            None => Err(ArchiveFault::Device),
        }
    }
}

/// Keeps the text of a history in a folder. It is written under another name, `ID-LIFE.part`, and gets its own once it is
/// durable, so no file of a history is ever half.
///
/// # Errors
///
/// `Taken` where there is a file of this name, and it isn't changed; `NoMemory`; or `Device`.
fn keep_in(
    rt: &HostRuntime,
    folder: &str,
    header: &Header,
    text: &[u8],
) -> Result<(), ArchiveFault> {
    let alloc = rt.alloc();
    let id = hex::encode(alloc, header.id)?;
    let life = header.life;
    let path = format!(in alloc; "{folder}/{id}-{life}.history")?;
    let part = format!(in alloc; "{folder}/{id}-{life}.part")?;
    match fs::exists(rt, path.as_str()) {
        Ok(false) => {}
        Ok(true) => return Err(ArchiveFault::Taken),
        Err(error) => return Err(fault_of(error)),
    }
    match write_durable(rt, folder, part.as_str(), path.as_str(), text) {
        Ok(()) => Ok(()),
        Err(error) => Err(fault_of(error)),
    }
}

/// Writes a text into a file of this folder, first under the name of its part. At `Ok` it is durable, and so is its name:
/// a link, which fails where something has the name by now.
fn write_durable(
    rt: &HostRuntime,
    folder: &str,
    part: &str,
    path: &str,
    text: &[u8],
) -> io::Result<()> {
    let mut file = File::create(rt, part)?;
    file.write_all(text)?;
    file.sync_all()?;
    fs::hard_link(rt, part, path)?;
    fs::remove_file(rt, part)?;
    File::open(rt, folder)?.sync_all()
}

/// Of an error of the system.
fn fault_of(error: io::Error) -> ArchiveFault {
    match error.kind() {
        io::ErrorKind::OutOfMemory => ArchiveFault::NoMemory,
        io::ErrorKind::AlreadyExists => ArchiveFault::Taken,
        _ => ArchiveFault::Device,
    }
}
