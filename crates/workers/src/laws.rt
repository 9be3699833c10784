//! Laws of what is under the lock: each is a function that does nothing, whose contract is the law.
//! It calls the laws on which it depends.

ghost use Rattle.workers.specs.SharedState.{StartIsKept, LettingInIsKept, TurnsAreKept};
ghost use Rattle.workers.specs.Worked.{EndingIsWorked};

use serial_order::{beginners_after, opens_after, own_after, summary_after, transactions_in_run};
use worker_turns::turns_are_told;

/// What is known whenever the lock is free holds at the start.
pub fn start_is_kept()
    ensures { StartIsKept }
{}

/// It goes on holding where one more worker is let in.
pub fn letting_in_is_kept()
    ensures { LettingInIsKept }
{}

/// It goes on holding by each turn of a worker.
pub fn turns_are_kept()
    ensures { TurnsAreKept }
{
    summary_after();
    transactions_in_run();
    opens_after();
    own_after();
    beginners_after();
    turns_are_told();
}

/// Where each worker that was let in is at its end, the store and the reports of the workers are what
/// comes back.
pub fn ending_is_worked()
    ensures { EndingIsWorked }
{}
