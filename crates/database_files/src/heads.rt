//! Whether a file may be one of a database.

use std::fs::File;
use std::io::Read;
use std::{fs, io};

/// The first bytes of a database.
const MAGIC: [u8; 16] = *b"SQLite format 3\0";

/// The bytes of the header of a database.
const HEADER: u64 = 100;

/// The bytes of the header of a log and of that of its first frame.
const LOG_HEADERS: u64 = 56;

/// Whether what is at a path, which is no link, may be a database: a file as long as the header, that begins as one.
/// Where a log is beside it the beginning isn't asked: a machine that stopped may have left the first page torn in the
/// file, and then the log has it. What is no file, and what the log has, is judged as it is opened.
pub(crate) fn may_be_database(rt: &HostRuntime, path: &str) -> io::Result<bool> {
    let found = fs::symlink_metadata(rt, path)?;
    if !found.is_file() {
        return Ok(true);
    }
    Ok(found.len() >= HEADER && (begins_as_database(rt, path)? || has_log(rt, path)?))
}

/// Whether the file begins with the first bytes of a database.
fn begins_as_database(rt: &HostRuntime, path: &str) -> io::Result<bool> {
    let mut first = [0u8; 16];
    let mut file = File::open(rt, path)?;
    file.read_exact(&mut first)?;
    Ok(first == MAGIC)
}

/// Whether the log of the file has room for a page.
fn has_log(rt: &HostRuntime, path: &str) -> io::Result<bool> {
    let log = format!(in rt.alloc(); "{path}-wal")?;
    match fs::symlink_metadata(rt, log.as_str()) {
        Ok(found) => Ok(found.len() > LOG_HEADERS),
        Err(error) if error.kind() == io::ErrorKind::NotFound => Ok(false),
        Err(error) => Err(error),
    }
}
