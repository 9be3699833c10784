//! Laws of dynamic atomicity: which orders of the committed transactions are legal, stores that are
//! joined, and the converse. Each function does nothing, and its contract is the law.

ghost use Rattle.dynamic_atomicity.specs.Dynamic.{CommitOrderKeeps, CoveredIsAtomic, RunsAreAtomic, RunsAreAtomicLiving};
ghost use Rattle.dynamic_atomicity.specs.Joined.{JoinedIsAtomic, JoinedIsAtomicLiving, JoinedOrder};
ghost use Rattle.dynamic_atomicity.specs.Witnessed.{WitnessBreaks};
ghost use Rattle.dynamic_atomicity.specs.Converse.{BreaksAreEnough, CoverIsExact, StrongIsExact, StrongSerialIsExact, UndoBreaks, UndoBreaksAreEnough, UndoSerialIsExact, YesIsExact};

use escrow_laws::{
    firm_after_apply, firm_after_commit, firm_after_strike, firm_is_legal, firm_is_safe,
    fresh_is_firm, nothing_keeps,
};
use object_trait::{checked_is_covered, parts_sort, sorts_equi, sorts_look, struck_part};
use serial_order::Entry;
use type_table::{
    ends_inside, ends_within, equi_extends, legal_ends, lists_forward, runs_along, steps_within,
};

/// At an object that is covered, each order of the committed transactions that keeps what precedes
/// there by operations that survive is legal, and its end agrees.
pub fn runs_are_atomic_living()
    ensures { RunsAreAtomicLiving }
{
    firm_after_apply();
    firm_after_commit();
    firm_after_strike();
    firm_is_legal();
    firm_is_safe();
    fresh_is_firm();
    nothing_keeps();
    runs_along();
    ends_inside();
    legal_ends();
    equi_extends();
    parts_sort::<Entry>();
    struck_part::<Entry>();
    sorts_look::<Entry>();
    sorts_equi::<Entry>();
    lists_forward();
}

/// So it is dynamically atomic, whatever the other objects are.
pub fn covered_is_atomic()
    ensures { CoveredIsAtomic }
{
    runs_are_atomic_living();
}

/// Dynamic atomicity: each run over covered objects is dynamically atomic at each of them.
pub fn runs_are_atomic()
    ensures { RunsAreAtomic }
{
    covered_is_atomic();
}

/// Commit order is one of the orders.
pub fn commit_order_keeps()
    ensures { CommitOrderKeeps }
{}

/// The transactions of several stores have an order that keeps what precedes at each object: that of
/// their first commits.
pub fn joined_order()
    ensures { JoinedOrder }
{}

/// Each such order is legal at every object of every store.
pub fn joined_is_atomic()
    ensures { JoinedIsAtomic }
{
    covered_is_atomic();
}

/// And so is each that keeps at every store what precedes by operations that survive.
pub fn joined_is_atomic_living()
    ensures { JoinedIsAtomicLiving }
{
    runs_are_atomic_living();
}

/// With update in place, a pair outside the table that doesn't commute gives a run that breaks.
pub fn undo_breaks()
    ensures { UndoBreaks }
{
    runs_along();
    legal_ends();
}

/// A conflict table is enough where each run of those that may break is dynamically atomic.
pub fn breaks_are_enough()
    ensures { BreaksAreEnough }
{
    runs_along();
    legal_ends();
}

/// So it is enough exactly where each run is.
pub fn cover_is_exact()
    ensures { CoverIsExact }
{
    covered_is_atomic();
    breaks_are_enough();
}

/// And so is a yes of the checker, where the relation is complete and all states of the set are
/// reached.
pub fn yes_is_exact()
    ensures { YesIsExact }
{
    steps_within();
    ends_within();
    checked_is_covered();
    cover_is_exact();
}

/// With update in place, a conflict table is enough where commit order is legal in each run of those that
/// may break.
pub fn undo_breaks_are_enough()
    ensures { UndoBreaksAreEnough }
{
    runs_along();
    legal_ends();
}

/// So it is enough exactly where commit order is legal in each run.
pub fn undo_serial_is_exact()
    ensures { UndoSerialIsExact }
{
    covered_is_atomic();
    commit_order_keeps();
    undo_breaks_are_enough();
}

/// And it is so strongly exactly where what was executed and commit order end equieffective.
pub fn strong_serial_is_exact()
    ensures { StrongSerialIsExact }
{
    runs_along();
    legal_ends();
    covered_is_atomic();
    commit_order_keeps();
}

/// Or, the same, where what was executed and each order that keeps what precedes do.
pub fn strong_is_exact()
    ensures { StrongIsExact }
{
    covered_is_atomic();
    commit_order_keeps();
    strong_serial_is_exact();
}

/// The history that a witness of a pair gives is a run where the pair isn't in the table, and in an order
/// of its commits that keeps what precedes it is illegal.
pub fn witness_breaks()
    ensures { WitnessBreaks }
{
    runs_along();
    legal_ends();
}
