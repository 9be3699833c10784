/// Whose turn it is.
#[derive(Clone, Copy, Debug, PartialEq, Eq)]
pub enum Schedule {
    /// Each worker has a thread of its own, and takes its turns when it has the lock.
    SideBySide,
    /// All are in one thread, and at each turn a worker is drawn by words from this seed.
    Drawn { seed: u64 },
}
