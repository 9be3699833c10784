use object_trait::LogEntry;

/// An entry of the log, and the state before it.
#[derive(Clone, Copy)]
pub struct UndoEntry {
    pub entry: LogEntry,
    pub before: u16,
}
