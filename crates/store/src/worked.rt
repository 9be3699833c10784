//! Worked stores: each function does nothing, and its contract is what comes out of them.
#![tactic(auto)]

ghost use Rattle.std.specs.Prelude.{◌≡◌, ◌<◌, List, ◌++◌, [], ◌∷◌, length, take, drop, true, false, Ok, Err, codes};
ghost use Rattle.object_trait.specs.Meaning.{Meaning};
ghost use Rattle.object_trait.specs.Examples.{held, counter_at};
ghost use Rattle.store_laws.specs.Examples.{stored, new_counters, counted, one_up, one_back, undo_counter_type, deferred_counter_type};
ghost use Rattle.store_limits.specs.Standard.{standard_with};
ghost use Rattle.type_table.specs.Limits.{longest_history, most_events};
ghost use Rattle.store.specs.Calls.{NotesAnswer, CallsIf, Would, unnumbered};
ghost use Rattle.store.specs.Ends.{closing, RefusesNew, IsHandedOut};
ghost use Rattle.store.specs.KeptState.{IsKeptState};
ghost use Rattle.store.specs.Room.{MakesRoom};
ghost use Rattle.store.specs.Examples.{event_by, roomy, two_left_open, up_beside_another, up_in_place};
ghost use Rattle.store.specs.Follows.{Follows, IsMade};
ghost use Rattle.store.specs.Replays.{Replays};
ghost use Rattle.store.specs.Renews.{Renews, RefusesRenew};

use crate::event_replay::{ReplayFault, Stray};
use crate::refusals::{NewRefusal, RenewRefusal};
use crate::store::Store;
use object_calls::Answer;
use object_trait::{EventKind, Recovery};
use serial_order::Refusal;
use type_table::Kind;

/// The end of a store aborts the open transactions in ascending order, each by the worker that began
/// it.
pub fn the_open_are_aborted_in_order()
    ensures { closing two_left_open ≡ event_by 4 (EventKind.Abort 0) ∷ event_by 4 (EventKind.Abort 2) ∷ [] }
{}

/// That there is no object comes before any other reason.
pub fn no_objects_is_the_first_reason()
    ensures { RefusesNew most_events [] (standard_with 1) NewRefusal.NoObjects }
{}

/// Where one reason holds, none that comes later is given.
pub fn no_later_reason_is_given()
    ensures no_objects { RefusesNew most_events [] (standard_with 1) NewRefusal.BadMax → ⊥ }
    ensures too_many { (ms : List Meaning) → 256 < length ms → RefusesNew most_events ms (standard_with 1) NewRefusal.NotFresh → ⊥ }
    ensures not_fresh { RefusesNew most_events counted.meanings (standard_with 1) NewRefusal.BadMax → ⊥ }
    ensures bad_max { RefusesNew most_events new_counters.meanings (standard_with 1) NewRefusal.NoMemory → ⊥ }
{}

/// An object with an open entry isn't handed out, also where it represents the history.
pub fn an_open_object_is_not_handed_out()
    ensures { IsHandedOut (counter_at Kind.Intentions 0 (held 0 0 ∷ [])) 1 (take 2 one_up) → ⊥ }
{}

/// With update in place the kept state is that after all that survives, and no other.
pub fn a_state_may_not_be_the_kept_one()
    ensures { IsKeptState (stored one_back) 0 0 → ⊥ }
{}

/// Each event says its answer.
pub fn an_answer_is_told_by_its_event()
    ensures reply { NotesAnswer (stored two_left_open) 9 0 1 0 (Ok (Answer.Reply 0)) (stored (two_left_open ++ event_by 9 (EventKind.Op 0 0 1) ∷ [])) }
    ensures busy { NotesAnswer (stored two_left_open) 9 2 1 0 (Ok (Answer.Busy 0)) (stored (two_left_open ++ event_by 9 (EventKind.Busy 0 2 1 0) ∷ [])) }
    ensures none { NotesAnswer (stored two_left_open) 9 2 1 1 (Ok Answer.None) (stored (two_left_open ++ event_by 9 (EventKind.None 2 1 1) ∷ [])) }
{}

/// A number that is that of no call is refused for the transaction first, then for the object.
pub fn a_number_of_no_call_is_refused()
    ensures ended { unnumbered (stored two_left_open) 1 9 ≡ Refusal.NotOpen }
    ensures no_object { unnumbered (stored two_left_open) 2 9 ≡ Refusal.NoObject }
    ensures no_call { unnumbered (stored two_left_open) 2 1 ≡ Refusal.NoCall }
{}

/// An event is made where a command makes it: of a transaction that ended nothing does.
#[tactic(auto, unfolding(type_table::specs::Table::next))]
pub fn an_event_is_made_or_not()
    ensures made { IsMade (stored (take 1 one_up)) (event_by 7 (EventKind.Op 0 0 1)) }
    ensures ended { IsMade (stored one_up) (event_by 7 (EventKind.Commit 0)) → ⊥ }
    ensures another { IsMade (stored (take 1 one_up)) (event_by 7 (EventKind.Op 1 0 1)) → ⊥ }
{}

/// A store that follows an event has it after the others, or is as it was.
pub fn a_store_follows_or_stays()
    ensures follows { Follows (stored (take 1 one_up)) (event_by 7 (EventKind.Op 0 0 1)) (Ok tt) (stored (take 2 one_up)) }
    ensures stays { Follows (stored one_up) (event_by 7 (EventKind.Commit 0)) (Err Stray.NotMade) (stored one_up) }
    ensures not_without_it { Follows (stored (take 1 one_up)) (event_by 7 (EventKind.Op 0 0 1)) (Ok tt) (stored (take 1 one_up)) → ⊥ }
    ensures not_for_nothing { Follows (stored (take 1 one_up)) (event_by 7 (EventKind.Op 0 0 1)) (Err Stray.NotMade) (stored (take 1 one_up)) → ⊥ }
{
    an_event_is_made_or_not();
}

/// What a call would be answered: the reply of the operation that is legal, who blocks it, or nothing.
#[tactic(auto, unfolding(type_table::specs::Table::next))]
pub fn a_call_would_be_answered()
    ensures reply { Would (stored (take 1 one_up)) 0 1 (codes "inc:1") (Ok (Answer.Reply 0)) }
    ensures none { Would (stored (take 1 one_up)) 0 1 (codes "dec:1") (Ok Answer.None) }
    ensures busy { Would (roomy up_beside_another) 1 0 (codes "dec:1") (Ok (Answer.Busy 0)) }
    ensures not_past_a_blocker { Would (roomy up_beside_another) 1 0 (codes "dec:1") (Ok (Answer.Reply 1)) → ⊥ }
    ensures refused { Would (stored one_up) 0 1 (codes "inc:1") (Err Refusal.NotOpen) }
{}

/// A call that is made if it has an answer: its event, or no change.
#[tactic(auto, unfolding(type_table::specs::Table::next))]
pub fn a_call_is_made_if_it_has_the_answer()
    ensures has { CallsIf (stored (take 1 one_up)) 7 0 1 (codes "inc:1") 0 (Answer.Reply 0) (Ok true) (stored (take 2 one_up)) }
    ensures has_not { CallsIf (stored (take 1 one_up)) 7 0 1 (codes "inc:1") 0 Answer.None (Ok false) (stored (take 1 one_up)) }
    ensures refused { CallsIf (stored one_up) 7 0 1 (codes "inc:1") 0 (Answer.Reply 0) (Err Refusal.NotOpen) (stored one_up) }
    ensures not_without_it { CallsIf (stored (take 1 one_up)) 7 0 1 (codes "inc:1") 0 (Answer.Reply 0) (Ok false) (stored (take 1 one_up)) → ⊥ }
{}

/// Room is made for as many events as the limit leaves beside the ends of open transactions.
pub fn room_is_made_within_the_limit()
    ensures made { MakesRoom (stored (take 1 one_up)) 2 (Ok tt) }
    ensures full { MakesRoom (stored (take 1 one_up)) 3 (Err Refusal.HistoryFull) }
    ensures not_beyond_it { MakesRoom (stored (take 1 one_up)) 3 (Ok tt) → ⊥ }
    ensures not_refused_within { MakesRoom (stored (take 1 one_up)) 2 (Err Refusal.HistoryFull) → ⊥ }
{}

/// No epoch begins where an open transaction has an operation, nor with an event, nor at a state that wasn't kept.
pub fn an_epoch_begins_at_what_was_kept()
    ensures open { Renews (stored (take 2 one_up)) (stored []) → ⊥ }
    ensures with_an_event { Renews (stored one_up) (stored one_up) → ⊥ }
    ensures at_another_state { Renews (stored up_in_place) (stored []) → ⊥ }
    ensures refused { RefusesRenew (stored (take 1 one_up)) RenewRefusal.StillOpen }
    ensures not_for_nothing { RefusesRenew (stored one_up) RenewRefusal.StillOpen → ⊥ }
{}

/// A store has one end, after which it isn't there: with it, how many events there were. A store that
/// is let go in another way, or used after it, is refused.
pub fn a_store_is_closed<R: Recovery>(store: Store<R>) -> usize
    ensures { result ≡ length (drop store.forgotten (store.history ++ closing store.history)) }
{
    let (history, _) = store.close();
    history.len()
}
