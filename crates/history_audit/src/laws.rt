//! Laws of the audit: each is a function that does nothing, whose contract is the law.

ghost use Rattle.history_audit.specs.Epochs.{EpochsDecide, EpochsPass, YesIsSerialOver};
ghost use Rattle.history_audit.specs.InOrder.{InOrderDecides, LegalOrdersPass};
ghost use Rattle.history_audit.specs.Laws.{YesIsSerial, SerialHistoriesPass, RunsPass, AuditDecides, AuditsAgree, AlikeIsWritten};

use serial_order::{
    epochs_are_serial, headline, history_opens_after, own_after, run_is_history, summary_after,
};
use table_checker::at_is_checked;
use type_table::{runs_alike, runs_along};

/// What the audit says yes to is serially legal, for any objects of these tables.
#[tactic(auto, using(crate::proofs::Said::yes_is_serial))]
pub fn yes_is_serial()
    ensures { YesIsSerial }
{}

/// To a history that is serially legal the audit says yes, or memory was refused.
#[tactic(auto, using(crate::proofs::Said::serial_histories_pass))]
pub fn serial_histories_pass()
    ensures { SerialHistoriesPass }
{
    runs_along();
}

/// So it does to each run of the machine over objects that are covered for their kinds.
#[tactic(auto, using(crate::proofs::Said::runs_pass))]
pub fn runs_pass()
    ensures { RunsPass }
{
    run_is_history();
    headline();
    serial_histories_pass();
}

/// Where memory wasn't refused, the audit says yes exactly to the histories that are serially legal.
#[tactic(auto, using(crate::proofs::Said::audit_decides))]
pub fn audit_decides()
    ensures { AuditDecides }
{
    runs_along();
}

/// To an order that keeps what precedes and is legal an audit in it says yes, or memory was refused.
#[tactic(auto, using(crate::proofs::InOrderDecided::legal_orders_pass))]
pub fn legal_orders_pass()
    ensures { LegalOrdersPass }
{
    runs_along();
}

/// Where memory wasn't refused, an audit in an order says yes exactly where the events are a history, the order
/// keeps what precedes, and it is legal.
#[tactic(auto, using(crate::proofs::InOrderDecided::in_order_decides))]
pub fn in_order_decides()
    ensures { InOrderDecides }
{
    runs_along();
}

/// Two audits of the same events over the same tables say the same, and have the same lines, where
/// memory was refused to neither.
#[tactic(auto, using(crate::proofs::Agree::audits_agree, crate::proofs::Agree::alike_written))]
pub fn audits_agree()
    ensures said { AuditsAgree }
    ensures lines { AlikeIsWritten }
{
    runs_along();
}

/// A yes to histories one after another says that their serial order, history after history, is legal from
/// the first initial states, and where it leads.
#[tactic(auto, using(crate::proofs::SerialsOver::yes_is_serial_over))]
pub fn yes_is_serial_over()
    ensures { YesIsSerialOver }
{
    runs_along();
    runs_alike();
}

/// Where memory wasn't refused, the audit says yes exactly to histories whose serial order, history after
/// history, is legal.
#[tactic(auto, using(crate::proofs::SerialsOver::epochs_decide))]
pub fn epochs_decide()
    ensures { EpochsDecide }
{
    runs_along();
    runs_alike();
}

/// The histories of epochs of checked types pass, or memory was refused: each is audited from the serial
/// states, of which the kept ones, at which its objects begin, may only look like them.
#[tactic(auto, using(crate::proofs::EpochsPassed::epochs_pass))]
pub fn epochs_pass()
    ensures { EpochsPass }
{
    run_is_history();
    at_is_checked();
    epochs_are_serial();
    epochs_decide();
}
