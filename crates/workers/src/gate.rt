/// What a worker passes before each of its turns, with the lock not held. A test or a bench lets it wait
/// there.
pub trait Gate: Sync {
    /// The turns of a worker are counted from 0, up to the greatest number.
    fn pass(&self, worker: u8, step: u32);
}

/// Lets everyone pass at once.
#[derive(Clone, Copy)]
pub struct NoGate;

impl Gate for NoGate {
    fn pass(&self, _worker: u8, _step: u32) {}
}
