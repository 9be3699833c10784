//! Laws of objects in escrow: each is a function that does nothing, whose contract is the law.

ghost use Rattle.escrow_exact.specs.Laws.{EscrowAdmitsTheSafe, LegalEndsAreSafe, NoStoreAdmitsMore, SafeEndsAreLegal, StoresAdmitTheSafe, UnsafeBreaks};

use dynamic_atomicity::{commit_order_keeps, covered_is_atomic};
use escrow_laws::{
    admitted_where_safe, firm_after_strike, firm_is_legal, firm_is_safe, firm_keeps_nobody,
    safe_is_firm,
};
use serial_order::{run_goes_on, transactions_in_run};
use type_table::{legal_ends, runs_along};

/// Where commit order stays legal whatever ends of transactions follow, what the open ones did is safe.
pub fn legal_ends_are_safe()
    ensures { LegalEndsAreSafe }
{
    runs_along();
}

/// And where that is safe, commit order stays legal. So of each type, and each kind of recovery.
pub fn safe_ends_are_legal()
    ensures { SafeEndsAreLegal }
{
    runs_along();
    legal_ends();
}

/// A store that refuses no commit, abort or rollback, and is serial in commit order, admits only what is
/// safe.
pub fn stores_admit_the_safe()
    ensures { StoresAdmitTheSafe }
{
    legal_ends_are_safe();
}

/// At an object in escrow that is covered, the machine admits exactly what is safe.
pub fn escrow_admits_the_safe()
    ensures { EscrowAdmitsTheSafe }
{
    runs_along();
    run_goes_on();
    transactions_in_run();
    firm_after_strike();
    firm_is_legal();
    firm_keeps_nobody();
    safe_is_firm();
    admitted_where_safe();
    covered_is_atomic();
    commit_order_keeps();
    legal_ends_are_safe();
}

/// So no store that refuses no commit, abort or rollback, and is serial in commit order, admits more
/// than the machine.
pub fn no_store_admits_more()
    ensures { NoStoreAdmitsMore }
{
    escrow_admits_the_safe();
    stores_admit_the_safe();
}

/// Where an operation that isn't safe is let in at a number, some commits and rollbacks follow, which no
/// store refuses, after which commit order isn't legal.
pub fn unsafe_breaks()
    ensures { UnsafeBreaks }
{
    runs_along();
    firm_is_safe();
}
