//! The file of a new database, until it is at its path.

use crate::faults::fault_of_system;
use command_files::DatabaseFault;
use std::fs::File;
use std::os::unix::fs::MetadataExt;
use std::{fs, io};

/// What comes after a path in the name under which its file is made.
const NEW: &str = "-colock-new";

/// What comes after a path in the names of its log, and of a journal that SQLite would play back into its file.
const BESIDE: [&str; 2] = ["-wal", "-journal"];

/// The path at which the file for a path is made.
///
/// # Errors
///
/// `NoMemory`.
pub(crate) fn new_path(rt: &HostRuntime, path: &str) -> Result<String, DatabaseFault> {
    match format!(in rt.alloc(); "{path}{NEW}") {
        Ok(new) => Ok(new),
        Err(_) => Err(DatabaseFault::NoMemory),
    }
}

/// Refuses a path at which there is something, or the log or the journal of a file.
///
/// # Errors
///
/// `Present`, `CannotOpen`, or `NoMemory`.
pub(crate) fn refuse_taken(rt: &HostRuntime, path: &str) -> Result<(), DatabaseFault> {
    refuse_there(rt, path)?;
    for behind in BESIDE {
        match format!(in rt.alloc(); "{path}{behind}") {
            Ok(beside) => refuse_there(rt, beside.as_str())?,
            Err(_) => return Err(DatabaseFault::NoMemory),
        }
    }
    Ok(())
}

/// Refuses a path at which there is something.
fn refuse_there(rt: &HostRuntime, path: &str) -> Result<(), DatabaseFault> {
    match fs::symlink_metadata(rt, path) {
        Ok(_) => Err(DatabaseFault::Present),
        Err(error) if error.kind() == io::ErrorKind::NotFound => Ok(()),
        Err(error) => Err(fault_of_system(error)),
    }
}

/// Puts the file that was made for a path at it, in one step. It is held, its log has nothing that it hasn't, and what
/// it has is on the disk.
///
/// # Errors
///
/// `Present` where something has come to the path, `Failed`, or `NoMemory`. Then the path has what it had.
pub(crate) fn publish_new(rt: &HostRuntime, path: &str) -> Result<(), DatabaseFault> {
    refuse_taken(rt, path)?;
    let new = new_path(rt, path)?;
    match fs::hard_link(rt, new.as_str(), path) {
        Ok(()) => {}
        Err(error) if error.kind() == io::ErrorKind::AlreadyExists => {
            return Err(DatabaseFault::Present);
        }
        Err(_) => return Err(DatabaseFault::Failed),
    }
    if sync_folder(rt, path).is_err() {
        let _ = fs::remove_file(rt, path);
        return Err(DatabaseFault::Failed);
    }
    Ok(())
}

/// Brings the names in the folder of a path to the disk.
fn sync_folder(rt: &HostRuntime, path: &str) -> io::Result<()> {
    let mut folder = fs::canonicalize(rt, path)?;
    folder.pop();
    File::open(rt, folder.as_str())?.sync_all()
}

/// Removes the name under which the file for a path was made, and its log. One that stays is emptied by who makes the
/// next one.
pub(crate) fn remove_new(rt: &HostRuntime, path: &str) {
    if let Ok(new) = new_path(rt, path) {
        if let Ok(log) = format!(in rt.alloc(); "{new}-wal") {
            let _ = fs::remove_file(rt, log.as_str());
        }
        let _ = fs::remove_file(rt, new.as_str());
    }
}

/// Removes the name under which the file at a path was made, where a process was killed right after it was published:
/// a file with two names isn't opened.
///
/// # Errors
///
/// `CannotOpen`, or `NoMemory`.
pub(crate) fn drop_new_name(rt: &HostRuntime, path: &str) -> Result<(), DatabaseFault> {
    let new = new_path(rt, path)?;
    if is_same_file(rt, path, new.as_str()) {
        match fs::remove_file(rt, new.as_str()) {
            Ok(()) => {}
            Err(error) => return Err(fault_of_system(error)),
        }
    }
    Ok(())
}

/// Whether two paths are names of one file.
fn is_same_file(rt: &HostRuntime, path: &str, other: &str) -> bool {
    match (
        fs::symlink_metadata(rt, path),
        fs::symlink_metadata(rt, other),
    ) {
        (Ok(one), Ok(two)) => one.dev() == two.dev() && one.ino() == two.ino(),
        _ => false,
    }
}
