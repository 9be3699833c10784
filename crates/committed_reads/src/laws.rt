//! Laws of readers: each is a function that does nothing, whose contract is the law.

ghost use Rattle.committed_reads.specs.Laws.{ReadersAreSerial, ReadsAreSerial, StillChangesNothing};

use committed_states::committed_agrees;
use equi_cert::simulation_looks;
use object_trait::checked_is_covered;
use serial_order::{headline, run_is_history};
use type_table::{ends_inside, legal_ends, runs_along, steps_within};

/// An operation that passes the test changes nothing.
pub fn still_changes_nothing()
    ensures { StillChangesNothing }
{
    steps_within();
    simulation_looks();
    checked_is_covered();
}

/// A transaction that only reads committed states is serial where it reads, and holds nothing. Weihl's locks
/// would hold its reads, and keep it out where another transaction's open operation conflicts with one.
pub fn reads_are_serial()
    ensures { ReadsAreSerial }
{
    committed_agrees();
    headline();
    runs_along();
    ends_inside();
    legal_ends();
}

/// So is any number of them.
pub fn readers_are_serial()
    ensures { ReadersAreSerial }
{
    reads_are_serial();
    headline();
    run_is_history();
}
