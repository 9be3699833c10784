use thiserror::Error;

/// Why the file of a database isn't opened, made or used.
#[derive(Clone, Copy, Debug, PartialEq, Eq, Error)]
pub enum DatabaseFault {
    /// There is nothing at the path.
    #[error("no such file")]
    Missing,
    /// There is something at the path.
    #[error("file exists")]
    Present,
    /// Another process holds it.
    #[error("in use")]
    Busy,
    /// It can't be opened, or isn't a database.
    #[error("cannot open")]
    CannotOpen,
    /// A read or a write of it failed.
    #[error("cannot read or write")]
    Failed,
    /// Memory was refused.
    #[error("no memory")]
    NoMemory,
}
