//! Laws of epochs: histories one after another, each from the states that were kept at the end of
//! the one before it. Each function does nothing, and its contract is the law.

ghost use Rattle.serial_order.specs.Epochs.{ClosedIsEpoch, EpochsAreSerial, EpochsGoOn, StatesAreInside};

use crate::laws::checked_headline;
use object_trait::checked_is_covered;
use table_checker::{at_is_checked, at_is_strong};
use type_table::{ends_inside, equi_extends, looks_extends, runs_alike, runs_along};

/// The committed transactions of all epochs, epoch after epoch, are serially legal from the first
/// initial states, and the last kept states agree with the serial ones.
pub fn epochs_are_serial()
    ensures { EpochsAreSerial }
{
    at_is_checked();
    at_is_strong();
    checked_is_covered();
    checked_headline();
    looks_extends();
    equi_extends();
    runs_alike();
    runs_along();
}

/// One epoch more, at the types of the last kept states, makes epochs again.
pub fn epochs_go_on()
    ensures { EpochsGoOn }
{}

/// At the state of a sound object its type may begin.
pub fn states_are_inside()
    ensures { StatesAreInside }
{
    checked_is_covered();
    ends_inside();
}

/// Where no transaction is open, a history and the states of the objects that represent it are an
/// epoch.
pub fn closed_is_epoch()
    ensures { ClosedIsEpoch }
{
    checked_is_covered();
    checked_headline();
    ends_inside();
}
