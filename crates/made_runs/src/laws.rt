//! Laws of runs that commands make: each is a function that does nothing, whose contract is the law.

ghost use Rattle.made_runs.specs.Laws.{RunsAreMade, StoreCoverIsExact, StoreMakesWitness, StoreUndoIsExact, StoreYesIsExact};

use dynamic_atomicity::{
    breaks_are_enough, commit_order_keeps, cover_is_exact, covered_is_atomic,
    undo_breaks_are_enough, witness_breaks, yes_is_exact,
};
use serial_order::{command_appends, replay_runs, replays_join};
use type_table::{legal_ends, runs_along, steps_within};

/// Each run is made by commands, where no event of it is `Busy` or `None`, the objects' states say the
/// replies, and there is room.
pub fn runs_are_made()
    ensures { RunsAreMade }
{
    runs_along();
    legal_ends();
    command_appends();
    replays_join();
}

/// So a conflict table is enough exactly where each history that a store makes is legal in each order that
/// keeps what precedes, if the state says the reply.
pub fn store_cover_is_exact()
    ensures { StoreCoverIsExact }
{
    replay_runs();
    runs_are_made();
    covered_is_atomic();
    breaks_are_enough();
}

/// So the checker says yes exactly where each is, if the relation is complete too.
pub fn store_yes_is_exact()
    ensures { StoreYesIsExact }
{
    replay_runs();
    steps_within();
    cover_is_exact();
    yes_is_exact();
    store_cover_is_exact();
}

/// With update in place, exactly where each is legal in commit order.
pub fn store_undo_is_exact()
    ensures { StoreUndoIsExact }
{
    replay_runs();
    runs_are_made();
    covered_is_atomic();
    commit_order_keeps();
    undo_breaks_are_enough();
}

/// The history that a witness of a missing pair gives is one that a store makes.
pub fn store_makes_witness()
    ensures { StoreMakesWitness }
{
    runs_are_made();
    witness_breaks();
}
