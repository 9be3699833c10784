/// Why an event isn't taken.
#[derive(Clone, Copy, Debug, PartialEq, Eq)]
pub enum EventFault {
    /// It can't follow those before it.
    Bad,
    /// Memory was refused.
    NoMemory,
}
