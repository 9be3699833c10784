//! Worked jobs and workers: each function does nothing, and its contract is what comes out of them.
#![tactic(auto)]

ghost use Rattle.std.specs.Prelude.{◌≡◌, [], ◌∷◌, ◌++◌, take, Some, codes};
ghost use Rattle.type_table.specs.Operation.{operation_at};
ghost use Rattle.store_laws.specs.Stored.{objects};
ghost use Rattle.store_laws.specs.Examples.{stored, one_up};
ghost use Rattle.store.specs.Calls.{noted};
ghost use Rattle.worker_turns.specs.Parts.{IsReply, IsNoReply, IsPart, IsBrokenTry, IsBeginRefusal, IsCallRefusal, call_fault, AreParts};
ghost use Rattle.worker_turns.specs.Progress.{IsTold};
ghost use Rattle.worker_turns.specs.Turns.{Turns, gets, ends, breaks, turns_left};
ghost use Rattle.worker_turns.specs.Examples.{counters, up_and_down_calls, up_and_away, in_the_way, both_made, first_made, purses, counting, away};

use crate::outcome::Outcome;
use crate::phase::Phase;
use number_types::worked::names_at_the_purse;
use object_trait::EventKind;
use serial_order::Refusal;

/// The first try of a job is broken, and the second commits. It needs two tries; with one it is given
/// up after the first.
pub fn a_job_is_tried_again()
    ensures committed { IsPart counters 2 up_and_down_calls (Outcome.Committed 3) (in_the_way ++ both_made) }
    ensures by_another { IsPart counters 2 up_and_down_calls (Outcome.Committed 2) (in_the_way ++ both_made) → ⊥ }
    ensures given_up { IsPart counters 1 up_and_down_calls Outcome.GaveUp in_the_way }
    ensures no_more_tries { IsPart counters 1 up_and_down_calls (Outcome.Committed 3) (in_the_way ++ both_made) → ⊥ }
{}

/// A broken try ends with its abort.
pub fn a_broken_try_is_not_left_open()
    ensures aborted { IsBrokenTry counters up_and_down_calls in_the_way }
    ensures left_open { IsBrokenTry counters up_and_down_calls (take 3 in_the_way) → ⊥ }
{}

/// A job is refused for the fault of its next call, or as memory was refused; where its begin is
/// refused, with no event.
pub fn a_job_is_refused()
    ensures fault { call_fault counters (9, codes "inc:1") ≡ Some Refusal.NoObject }
    ensures refused { IsPart counters 1 up_and_away (Outcome.Refused Refusal.NoObject) first_made }
    ensures memory { IsPart counters 1 up_and_away (Outcome.Refused Refusal.NoMemory) first_made }
    ensures not_full { IsCallRefusal counters (9, codes "inc:1") Refusal.HistoryFull → ⊥ }
    ensures at_begin { IsPart counters 1 up_and_away (Outcome.Refused Refusal.HistoryFull) [] }
    ensures not_at_begin { IsBeginRefusal Refusal.NoObject → ⊥ }
{}

/// The parts of a worker's jobs come one after another, one for each outcome.
pub fn parts_are_in_order()
    ensures told { AreParts counters 2 (up_and_down_calls ∷ up_and_away ∷ up_and_down_calls ∷ []) (Outcome.Committed 3 ∷ Outcome.Refused Refusal.NoObject ∷ [])
        ((in_the_way ++ both_made) ++ first_made) }
    ensures not_run { AreParts counters 2 (up_and_down_calls ∷ up_and_away ∷ []) (Outcome.NotRun ∷ Outcome.NotRun ∷ []) [] }
    ensures no_job { AreParts counters 2 [] (Outcome.NotRun ∷ []) [] → ⊥ }
{}

/// A call that takes any amount is named with it. Its reply has the amount; where it has none, the event
/// says the place alone.
pub fn a_job_takes_any_amount()
    ensures reply { IsReply purses 3 (0, codes "take:4") (EventKind.Op (operation_at 2 (Some 4)) 3 0) }
    ensures no_amount { IsReply purses 3 (0, codes "take:4") (EventKind.Op 2 3 0) → ⊥ }
    ensures busy { IsNoReply purses 3 (0, codes "take:4") (EventKind.Busy 2 3 0 1) }
    ensures by_number { IsNoReply purses 3 (0, codes "take:4") (EventKind.Busy (operation_at 2 (Some 4)) 3 0 1) → ⊥ }
    ensures too_much { call_fault purses (0, codes "take:10") ≡ Some Refusal.NoCall }
{
    names_at_the_purse();
}

/// A worker with one job of one call begins, calls and commits.
pub fn a_job_takes_three_turns()
    ensures begins { Turns (stored []) 7 (counting Phase.Idle 0) (stored (take 1 one_up)) (counting (Phase.Going 0 0) 1) }
    ensures calls { Turns (stored (take 1 one_up)) 7 (counting (Phase.Going 0 0) 1) (stored (take 2 one_up)) (counting (Phase.Going 0 1) 2) }
    ensures commits { Turns (stored (take 2 one_up)) 7 (counting (Phase.Going 0 1) 2) (stored one_up) (ends (Outcome.Committed 0) (counting Phase.Idle 3)) }
    ensures too_early { Turns (stored (take 1 one_up)) 7 (counting (Phase.Going 0 0) 1) (noted (stored (take 1 one_up)) 7 (EventKind.Commit 0))
        (ends (Outcome.Committed 0) (gets (take 1 one_up) 7 (EventKind.Commit 0) (counting Phase.Idle 1))) → ⊥ }
    ensures idles { Turns (stored []) 7 (counting Phase.Idle 0) (stored []) (counting Phase.Idle 0) → ⊥ }
{}

/// A call that had no reply breaks its try, whose abort is the next turn.
pub fn a_broken_try_takes_a_turn_for_its_abort()
    ensures breaks { Turns (stored (take 1 one_up)) 7 (counting (Phase.Going 0 0) 1) (noted (stored (take 1 one_up)) 7 (EventKind.None 0 1 0))
        (gets (take 1 one_up) 7 (EventKind.None 0 1 0) (counting (Phase.Breaking 0 0) 1)) }
    ensures aborts { Turns (stored (take 1 one_up)) 7 (counting (Phase.Breaking 0 0) 1) (noted (stored (take 1 one_up)) 7 (EventKind.Abort 0))
        (breaks (gets (take 1 one_up) 7 (EventKind.Abort 0) (counting (Phase.Breaking 0 0) 1))) }
    ensures gives_up_early { Turns (stored (take 1 one_up)) 7 (counting (Phase.Breaking 0 0) 1) (noted (stored (take 1 one_up)) 7 (EventKind.Abort 0))
        (ends Outcome.GaveUp (gets (take 1 one_up) 7 (EventKind.Abort 0) (counting (Phase.Breaking 0 0) 1))) → ⊥ }
{}

/// A call that is refused leaves the store, and the abort is the next turn; a begin that is refused
/// needs none.
pub fn a_refused_call_takes_a_turn_for_its_abort()
    ensures refuses { Turns (stored (take 1 one_up)) 7 (away (Phase.Going 0 0) 1) (stored (take 1 one_up)) (away (Phase.Refusing 0 0 Refusal.NoObject) 1) }
    ensures another { Turns (stored (take 1 one_up)) 7 (away (Phase.Going 0 0) 1) (stored (take 1 one_up)) (away (Phase.Refusing 0 0 Refusal.NoCall) 1) → ⊥ }
    ensures memory { Turns (stored (take 1 one_up)) 7 (away (Phase.Going 0 0) 1) (stored (take 1 one_up)) (away (Phase.Refusing 0 0 Refusal.NoMemory) 1) → ⊥ }
    ensures full { Turns (stored one_up) 7 (counting Phase.Idle 0) (stored one_up) (ends (Outcome.Refused Refusal.HistoryFull) (counting Phase.Idle 0)) }
    ensures not_full { Turns (stored []) 7 (counting Phase.Idle 0) (stored []) (ends (Outcome.Refused Refusal.HistoryFull) (counting Phase.Idle 0)) → ⊥ }
    ensures aborts { Turns (stored (take 1 one_up)) 7 (away (Phase.Refusing 0 0 Refusal.NoObject) 1) (noted (stored (take 1 one_up)) 7 (EventKind.Abort 0))
        (ends (Outcome.Refused Refusal.NoObject) (gets (take 1 one_up) 7 (EventKind.Abort 0) (away Phase.Idle 1))) }
{}

/// What a worker has noted in the midst of its job, and the turns that it has left.
pub fn a_worker_in_the_midst()
    ensures told { IsTold (objects (stored (take 2 one_up))) (counting (Phase.Going 0 1) 2) }
    ensures left_out { IsTold (objects (stored (take 2 one_up))) (counting (Phase.Going 0 1) 1) → ⊥ }
    ensures all { turns_left (counting Phase.Idle 0) ≡ 6 }
    ensures some { turns_left (counting (Phase.Going 0 1) 2) ≡ 4 }
{}
