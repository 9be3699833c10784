//! Laws of committed states: each is a function that does nothing, whose contract is the law.

ghost use Rattle.committed_states.specs.Laws.{ClosedIsCommitted, CommittedAgrees, CommittedIsOne, CommittedIsThere, CommittedStays};

use object_trait::{parts_sort, sorts_equi, sorts_look, struck_part};
use serial_order::{Entry, states_are_inside};
use type_table::{ends_inside, legal_ends, runs_along};

/// After a run, what a sound object that represents it has is a committed state.
pub fn committed_is_there()
    ensures { CommittedIsThere }
{
    runs_along();
    ends_inside();
    legal_ends();
    parts_sort::<Entry>();
    struck_part::<Entry>();
    sorts_look::<Entry>();
}

/// No operation tells two committed states of an object apart. Under update in place and in escrow there is one
/// alone.
pub fn committed_is_one()
    ensures { CommittedIsOne }
{}

/// A committed state looks like the serial one, and is equieffective to it where the yes is strong; also while
/// transactions are open.
pub fn committed_agrees()
    ensures { CommittedAgrees }
{
    runs_along();
    parts_sort::<Entry>();
    struck_part::<Entry>();
    sorts_look::<Entry>();
    sorts_equi::<Entry>();
}

/// Each event but a commit leaves committed states.
pub fn committed_stays()
    ensures { CommittedStays }
{}

/// Where nobody is open, the state of an object is a committed state.
pub fn closed_is_committed()
    ensures { ClosedIsCommitted }
{
    runs_along();
    states_are_inside();
}
