//! Laws of carried transactions: each is a function that does nothing, whose contract is the law.

ghost use Rattle.carried_runs.specs.OpenEpochs.{OpenEpochsAreSerial};
ghost use Rattle.carried_runs.specs.Laws.{CarriedApplies, CarriedFits, CarriedInAnyOrder, CarriedIsRun, CarriedSees, CarriedShows, CarriedWorks, LogsTellCarried, LogsTellOrder, RenewCarries, RenewalIsUnseen};

use committed_states::{closed_is_committed, committed_agrees};
use escrow_laws::{
    firm_after_apply, firm_after_commit, firm_after_strike, firm_is_legal, firm_is_safe,
    firm_keeps_nobody, fresh_is_firm, nothing_keeps, safe_is_firm,
};
use object_trait::{checked_is_covered, parts_sort, sorts_equi, sorts_look, struck_part};
use serial_order::{Entry, checked_headline, closed_is_epoch, machine_may_apply};
use table_checker::{at_is_checked, at_is_strong};
use type_table::{
    ends_inside, equi_extends, legal_ends, lists_forward, looks_extends, runs_alike, runs_along,
};

// ---- epochs

/// Epochs that end while transactions are open, each beginning at committed states of the one before it,
/// are serially legal, one after another.
pub fn open_epochs_are_serial()
    ensures { OpenEpochsAreSerial }
{
    committed_agrees();
    runs_alike();
    at_is_checked();
    at_is_strong();
    checked_is_covered();
    checked_headline();
    looks_extends();
    equi_extends();
    runs_along();
}

// ---- they are a run

/// Behind an open epoch, what is carried of it is a run, in each order that keeps the order at each object.
/// Under update in place the open operations move behind the committed ones, by exchanges of neighbours that
/// commute backward; under deferred update each transaction's are legal in its view (Weihl 1988, 1989). In
/// escrow what is firm stays so without the operations that aren't carried (O'Neil 1986).
pub fn carried_in_any_order()
    ensures { CarriedInAnyOrder }
{
    runs_along();
    runs_alike();
    ends_inside();
    legal_ends();
    parts_sort::<Entry>();
    struck_part::<Entry>();
    sorts_look::<Entry>();
    lists_forward();
    firm_after_apply();
    firm_after_commit();
    firm_after_strike();
    nothing_keeps();
    firm_is_legal();
    fresh_is_firm();
    firm_is_safe();
    safe_is_firm();
    firm_keeps_nobody();
    checked_is_covered();
    at_is_checked();
}

/// So it is in the order in which it was executed.
pub fn carried_is_run()
    ensures { CarriedIsRun }
{
    carried_in_any_order();
}

/// It only begins transactions and executes operations, which is what `redo` does again.
pub fn carried_works()
    ensures { CarriedWorks }
{}

/// The log of an object that represents the history tells what is to be done again there, in its order.
pub fn logs_tell_carried()
    ensures { LogsTellCarried }
{}

/// So the logs of all objects, one after another, tell an order in which what is carried is a run. No event of
/// the history is needed.
pub fn logs_tell_order()
    ensures { LogsTellOrder }
{
    logs_tell_carried();
}

/// An object that represents what was done again so far may do the next operation.
pub fn carried_applies()
    ensures { CarriedApplies }
{
    carried_is_run();
    machine_may_apply();
}

/// Where an epoch goes on until nobody is open, and nothing is committed, it is an epoch; and what was open before
/// may be carried into the next one.
pub fn renew_carries()
    ensures { RenewCarries }
{
    closed_is_epoch();
    closed_is_committed();
    carried_is_run();
}

// ---- what they see

/// What a carried transaction sees at an object agrees with what it saw.
pub fn carried_sees()
    ensures { CarriedSees }
{
    runs_along();
    ends_inside();
    legal_ends();
    parts_sort::<Entry>();
    struck_part::<Entry>();
    sorts_look::<Entry>();
    sorts_equi::<Entry>();
    lists_forward();
    firm_after_apply();
    firm_after_commit();
    firm_after_strike();
    nothing_keeps();
    firm_is_legal();
    fresh_is_firm();
}

/// What is carried says that its transactions began and did just this, and shows each of them its view.
pub fn carried_shows()
    ensures { CarriedShows }
{}

/// In each order, what is carried is no longer than the history, even with the ends that are still to come.
pub fn carried_fits()
    ensures { CarriedFits }
{}

/// Where each yes is strong, a renewal that carries all open transactions is unseen: what the next epoch does,
/// the old one might have done, had it had the objects that are added.
pub fn renewal_is_unseen()
    ensures { RenewalIsUnseen }
{
    runs_along();
    runs_alike();
    legal_ends();
    parts_sort::<Entry>();
    struck_part::<Entry>();
    sorts_look::<Entry>();
    sorts_equi::<Entry>();
    firm_after_apply();
    firm_after_commit();
    firm_after_strike();
    nothing_keeps();
    firm_is_legal();
    fresh_is_firm();
    firm_is_safe();
    safe_is_firm();
    firm_keeps_nobody();
    checked_is_covered();
    at_is_checked();
}
