//! How a worker lets others go ahead. Each of these waits with the lock not held.

ghost use Rattle.std.specs.Prelude.{◌<◌};

use crate::shared::{HasStart, Shared};
use object_trait::Recovery;
use std::sync::{Mutex, MutexGuard, Wait};
use std::thread;

/// How often a worker looks whether the lock is free before it sleeps until it is.
const LOOKS: u32 = 10;
/// Pauses between looks double up to the one of this number.
const LONGEST_BETWEEN_LOOKS: u32 = 6;
/// Pauses before a try double up to the one of this number.
const LONGEST_BEFORE_A_TRY: u32 = 3;

/// Takes the lock. Each look at a lock that is held slows its holder down, so there are pauses between
/// them, longer and longer.
pub(crate) fn take<'a, R: Recovery, H: Wait, S: HasStart>(
    rt: &H,
    shared: &'a Mutex<Shared<R, S>>,
) -> MutexGuard<'a, Shared<R, S>> {
    for look in 0..LOOKS {
        if let Some(held) = shared.try_lock() {
            return held;
        }
        pause(look.min(LONGEST_BETWEEN_LOOKS));
    }
    shared.lock(rt)
}

/// Waits before a try where this many tries of its job were broken: the transaction that was in the
/// way may end meanwhile.
pub(crate) fn wait_for_a_try(broken: u8) {
    if broken > 0 {
        pause(u32::from(broken).min(LONGEST_BEFORE_A_TRY));
    }
}

/// Lets other threads run, twice as often as the pause before this one.
fn pause(number: u32)
    requires { number < 32 }
{
    for _ in 0..1u32 << number {
        thread::yield_now();
    }
}
