//! Laws of audits and of dynamic atomicity together: each is a function that does nothing, whose contract is the law.
#![tactic(auto)]

ghost use Rattle.audit_laws.specs.Laws.{KeptOrdersPass, LivingPrecedes};

use dynamic_atomicity::runs_are_atomic_living;
use history_audit::legal_orders_pass;
use serial_order::{run_is_history, survives_as_read};

/// Where operations that survive are dated with what had committed, that precedes.
#[tactic(auto, using(crate::proofs::Dated::living_precedes))]
pub fn living_precedes()
    ensures { LivingPrecedes }
{
    survives_as_read();
}

/// In a run over covered objects an audit in any order that keeps what precedes says yes, or memory was refused: it
/// finds no operation that isn't legal.
#[tactic(auto, using(crate::proofs::Orders::kept_orders_pass))]
pub fn kept_orders_pass()
    ensures { KeptOrdersPass }
{
    run_is_history();
    runs_are_atomic_living();
    legal_orders_pass();
    living_precedes();
}
