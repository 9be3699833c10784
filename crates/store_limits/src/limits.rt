ghost use Rattle.std.specs.Prelude.{◌≡◌, ◌&&◌, nat_le};

/// How many events a store may make, how many transactions may be open at once, and how many objects it may have.
#[derive(Clone, Copy, Debug, PartialEq, Eq)]
pub struct Limits {
    /// From 2 to 4,294,967,295.
    pub events: u32,
    /// From 1 to 65,536.
    pub open: u32,
    /// From 1 to 65,536.
    pub objects: u32,
}

/// How many transactions may be open at most, and how many objects there may be, whatever the limits are.
pub const MOST_OF_EACH: u32 = 65_536;

/// The least limit of events: a begin and an end.
const LEAST_EVENTS: u32 = 2;

impl Limits {
    ghost use Rattle.store_limits.specs.Standard.{standard, standard_with, are_limits};

    /// Those of a store that names none: 1,000,000 events, 1,024 open transactions and 256 objects.
    pub fn standard() -> Limits
        ensures { result ≡ standard }
    {
        Limits::standard_with(1_000_000)
    }

    /// The standard limits with another number of events.
    pub fn standard_with(events: u32) -> Limits
        ensures { result ≡ standard_with events }
    {
        Limits {
            events,
            open: 1024,
            objects: 256,
        }
    }

    /// Whether a store may have these limits, where this is the greatest number of events.
    pub fn are_within(self, greatest: u32) -> bool
        ensures { result ≡ are_limits greatest self }
    {
        LEAST_EVENTS <= self.events
            && self.events <= greatest
            && is_some_of_each(self.open)
            && is_some_of_each(self.objects)
    }
}

/// Whether this is a limit of open transactions, or of objects.
fn is_some_of_each(limit: u32) -> bool
    ensures { result ≡ (nat_le 1 limit && nat_le limit 65536) }
{
    1 <= limit && limit <= MOST_OF_EACH
}
