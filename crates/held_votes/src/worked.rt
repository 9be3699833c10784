//! A worked example: the function does nothing, and its contract is the example.
#![tactic(auto)]

ghost use Rattle.std.specs.Prelude.{◌≡◌, [], ◌∷◌};
ghost use Rattle.carried_runs.specs.Examples.{one_taker, two_takers};
ghost use Rattle.durable_store.specs.Held.{moved_among, undecided};
ghost use Rattle.held_votes.specs.Examples.{zoe, zoe_later};
ghost use Rattle.held_votes.specs.VotesHeld.{operations_at};

/// Transaction 2, which takes the b, is prepared for Zoe. It alone goes over into the next epoch, where it has the number 0: it
/// is prepared there, and what survives of it is what survived.
pub fn zoe_is_held()
    ensures works { operations_at two_takers 2 0 ≡ 3 ∷ [] }
    ensures goes_over { moved_among (2 ∷ []) zoe ≡ zoe_later }
    ensures prepared { undecided one_taker (zoe_later ∷ []) ≡ zoe_later ∷ [] }
    ensures works_later { operations_at one_taker 0 0 ≡ 3 ∷ [] }
{}
