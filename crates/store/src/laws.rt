//! Each function does nothing, and its contract is the law. It calls the laws on which it depends.

ghost use Rattle.store.specs.OwnHistory.{AskedIsFollowed, ClosingIsOwn, StepsAreOwn};
ghost use Rattle.store.specs.Renewals.{RenewalsAreSerial};
ghost use Rattle.store.specs.Retraces.{ClosingIsTraced, MadeIsRetraced, StepsAreTraced, TracedIsRun};

use serial_order::{
    beginners_after, command_appends, epochs_are_serial, epochs_go_on, opens_after, run_goes_on,
    summary_after, transactions_in_run,
};

/// The committed transactions of a store and of those that renewed it, one store after another and in
/// each in commit order, are serially legal from the first initial states, for any number of stores.
pub fn renewals_are_serial()
    ensures { RenewalsAreSerial }
{
    epochs_are_serial();
    epochs_go_on();
}

/// A history that a store makes is one that a store of its types and its limit follows: of each event some command
/// that isn't refused makes it (`follow`). It stays so by each command, and by the aborts of what is open.
pub fn steps_are_followed()
    ensures asked { AskedIsFollowed }
    ensures steps { StepsAreOwn }
    ensures closing { ClosingIsOwn }
{
    run_goes_on();
    summary_after();
    transactions_in_run();
    opens_after();
    beginners_after();
}

/// What a store makes is done again (`retrace`), also behind operations that were carried into its history. Such a
/// history is a run, and stays so by each command, and by the aborts of what is open.
pub fn steps_are_retraced()
    ensures made { MadeIsRetraced }
    ensures run { TracedIsRun }
    ensures steps { StepsAreTraced }
    ensures closing { ClosingIsTraced }
{
    command_appends();
    run_goes_on();
    summary_after();
    transactions_in_run();
    opens_after();
    beginners_after();
}
