//! Laws of what the checker answers to what is made: each is a function that does nothing, whose contract is the law. It
//! calls the laws on which it depends.

ghost use Rattle.made_answers.specs.Laws.{AloneIsStrong, AmountsAreAccepted, ElementsAreAccepted, ExactAnswers, ExactStrength, FamiliesAreAccepted, FamiliesHaveClosedSets, LoneStatesAreStrong, MadeIsAccepted, MadeIsExact, MadeIsStrong, NumbersAreAccepted, NumericIsStrong, QueuesHaveLoneStates, SeatsHaveLoneStates, SemiqueuesHaveLoneStates, SetsHaveLoneStates};

use escrow_laws::{bounds_are_numeric, bounds_are_told};
use exact_tables::{covers_exactly, covers_strongly_exactly, exact_simulates};
use table_checker::{number_is_checked, one_answer, yes_covers};
use type_table::steps_within;

/// Over a closed set with the initial state, and with an exact relation, the answer is a yes exactly where the conflict
/// table covers, over all lists of operations.
pub fn exact_answers()
    ensures { ExactAnswers }
{
    one_answer();
    exact_simulates();
    covers_exactly();
}

/// And it is strong exactly where the table covers strongly.
pub fn exact_strength()
    ensures { ExactStrength }
{
    covers_strongly_exactly();
}

/// So it is with a made file whose set is closed and holds the initial state.
#[tactic(auto, using(crate::proofs::Yeses::made_is_exact))]
pub fn made_is_exact()
    ensures { MadeIsExact }
{}

/// The answer to a made file is a yes exactly where its set is closed and holds the initial state.
pub fn made_is_accepted()
    ensures { MadeIsAccepted }
{
    one_answer();
    yes_covers();
    exact_simulates();
}

/// For deferred update it is strong then.
pub fn made_is_strong()
    ensures { MadeIsStrong }
{
    made_is_accepted();
}

/// The set of a family's file is closed and holds the initial state.
pub fn families_have_closed_sets()
    ensures { FamiliesHaveClosedSets }
{
    steps_within();
}

/// So the answer to it is a yes for update in place and for deferred update.
pub fn families_are_accepted()
    ensures { FamiliesAreAccepted }
{
    made_is_accepted();
    families_have_closed_sets();
}

/// A yes for update in place is strong where no state looks like another.
pub fn alone_is_strong()
    ensures { AloneIsStrong }
{
    steps_within();
    exact_answers();
    exact_strength();
}

/// So is the answer to the file of a family whose states are such, for update in place and for deferred update.
pub fn lone_states_are_strong()
    ensures { LoneStatesAreStrong }
{
    alone_is_strong();
    made_is_exact();
    made_is_strong();
    families_have_closed_sets();
    families_are_accepted();
}

/// What is asked of each element tells the states of a set apart.
pub fn sets_have_lone_states()
    ensures { SetsHaveLoneStates }
{
    steps_within();
}

/// What each seat allows tells those of seats.
pub fn seats_have_lone_states()
    ensures { SeatsHaveLoneStates }
{
    steps_within();
}

/// What comes out of a queue and what still goes in tell its states apart.
pub fn queues_have_lone_states()
    ensures { QueuesHaveLoneStates }
{
    steps_within();
}

/// And so it is with a semiqueue.
pub fn semiqueues_have_lone_states()
    ensures { SemiqueuesHaveLoneStates }
{
    steps_within();
}

/// The answer to the file of a set, a semiqueue, a queue or seats is a strong yes for update in place and for deferred
/// update.
pub fn elements_are_accepted()
    ensures { ElementsAreAccepted }
{
    lone_states_are_strong();
    sets_have_lone_states();
    semiqueues_have_lone_states();
    queues_have_lone_states();
    seats_have_lone_states();
}

/// A yes for update in place is strong where the type is numeric.
pub fn numeric_is_strong()
    ensures { NumericIsStrong }
{
    exact_answers();
    exact_strength();
}

/// The answer to the file of an account, a counter or a stock is a strong yes for each kind of recovery.
pub fn amounts_are_accepted()
    ensures { AmountsAreAccepted }
{
    one_answer();
    steps_within();
    bounds_are_told();
    bounds_are_numeric();
    made_is_exact();
    made_is_strong();
    families_have_closed_sets();
    families_are_accepted();
    numeric_is_strong();
}

/// For escrow, that to a made number is one.
pub fn numbers_are_accepted()
    ensures { NumbersAreAccepted }
{
    one_answer();
    number_is_checked();
}
