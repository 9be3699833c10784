use std::time::Duration;

/// When an epoch ends by itself.
#[derive(Clone, Copy, Debug)]
pub struct EpochLimits {
    /// With this many events an epoch is full: no further transaction begins in it.
    pub most_events: u32,
    /// How long those that are open then may go on.
    pub drain: Duration,
}
