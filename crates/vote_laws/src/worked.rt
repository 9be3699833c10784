//! Worked examples: each function does nothing, and its contract is the example.
#![tactic(auto)]

ghost use Rattle.std.specs.Prelude.{◌≡◌, [], ◌∷◌, true, false, None, Some, codes};
ghost use Rattle.durable_store.specs.Held.{but_number, first_passing, has_key, has_number, moved_among, prepared_numbers, undecided};
ghost use Rattle.durable_store.specs.Votes.{agrees, decided_outcome};
ghost use Rattle.vote_laws.specs.Examples.{ann, bob, eve, guests, one_ended};

use durable_store::Decision;
use journal::Outcome;

/// Bob's transaction has ended, so Ann's and Eve's are prepared and not decided.
pub fn who_has_ended_is_decided()
    ensures { undecided one_ended guests ≡ ann ∷ eve ∷ [] }
{}

/// Who is prepared is found by key, or by number.
pub fn who_is_prepared_is_found()
    ensures by_key { first_passing (has_key (codes "eve")) guests ≡ Some eve }
    ensures by_number { first_passing (has_number 1) guests ≡ Some bob }
    ensures none { first_passing (has_key (codes "dan")) guests ≡ None }
    ensures without { but_number 1 guests ≡ ann ∷ eve ∷ [] }
    ensures numbers { prepared_numbers guests ≡ 0 ∷ 1 ∷ 2 ∷ [] }
{}

/// Where 0 and 2 go over into the next epoch, Eve's transaction has the number 1 there, and the name that she knows.
pub fn who_goes_over_keeps_its_name()
    ensures { moved_among (0 ∷ 2 ∷ []) eve ≡ record eve { number = 1 } }
{}

/// A decision agrees with what it leaves, and with nothing else.
pub fn a_decision_agrees_with_what_it_leaves()
    ensures commit { agrees Decision.Commit (decided_outcome Decision.Commit) ≡ true }
    ensures abort { agrees Decision.Abort (decided_outcome Decision.Abort) ≡ true }
    ensures committed { agrees Decision.Abort (decided_outcome Decision.Commit) ≡ false }
    ensures aborted { agrees Decision.Commit Outcome.Aborted ≡ false }
{}
