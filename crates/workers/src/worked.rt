//! Worked histories of workers: each function does nothing, and its contract is what comes out of them.
#![tactic(auto)]

ghost use Rattle.std.specs.Prelude.{◌≡◌, List, [], ◌∷◌, true, false, take, Some, None, codes};
ghost use Rattle.store_laws.specs.Stored.{Stored};
ghost use Rattle.store_laws.specs.Examples.{one_up, stored};
ghost use Rattle.worker_turns.specs.Progress.{receipt_kinds};
ghost use Rattle.worker_turns.specs.declared.outcome.Report.{Report as ReportValue};
ghost use Rattle.workers.specs.Events.{receipts_of, done_by, IsReplayed};
ghost use Rattle.workers.specs.SharedState.{past, HasCause};
ghost use Rattle.workers.specs.Worked.{IsReport, Works, are_workers, are_tries};
ghost use Rattle.workers.specs.Examples.{start, since, after_both, of_first, of_second};

use crate::fault::WorkFault;
use serial_order::Refusal;
use worker_turns::Outcome;

/// Each worker's events are those that it made, at their places in the whole history.
pub fn events_of_two_workers()
    ensures since_then { past start after_both ≡ since }
    ensures before { past start one_up ≡ [] }
    ensures first { receipts_of 0 3 since ≡ of_first }
    ensures second { receipts_of 1 3 since ≡ of_second }
    ensures nobody { receipts_of 7 3 since ≡ [] }
    ensures elsewhere { receipts_of 0 0 since ≡ of_first → ⊥ }
{}

/// What a transaction did by a worker's events is what is replayed for it, where it committed.
pub fn operations_of_two_workers()
    ensures of_its_own { done_by 1 (receipt_kinds of_first) ≡ record { by = 1; at = 0; op = 0 } ∷ [] }
    ensures of_another { done_by 2 (receipt_kinds of_first) ≡ [] }
    ensures replayed { IsReplayed after_both 1 (receipt_kinds of_first) }
    ensures left_out { IsReplayed after_both 1 [] → ⊥ }
    ensures not_committed { IsReplayed after_both 2 (receipt_kinds of_second) → ⊥ }
{}

/// A worker that was started has an outcome for each job, which says that it was run.
pub fn a_job_that_was_run()
    ensures committed { (r : ReportValue) → r.receipts.items ≡ of_first → r.outcomes.items ≡ Outcome.Committed 1 ∷ []
        → IsReport start after_both 0 (((0, codes "inc:1") ∷ []) ∷ []) r }
    ensures not_run { (r : ReportValue) → r.outcomes.items ≡ Outcome.NotRun ∷ []
        → IsReport start one_up 0 (((0, codes "inc:1") ∷ []) ∷ []) r → ⊥ }
    ensures invented { (r : ReportValue) → r.receipts.items ≡ of_first → IsReport start one_up 0 (((0, codes "inc:1") ∷ []) ∷ []) r → ⊥ }
    ensures of_another { (r : ReportValue) → r.receipts.items ≡ of_second → IsReport start after_both 0 (((0, codes "inc:1") ∷ []) ∷ []) r → ⊥ }
{}

/// A job is refused since the history is full only where it is, and since too many transactions are
/// open only where there can be.
pub fn a_refusal_has_a_cause()
    ensures full { HasCause start after_both Refusal.HistoryFull }
    ensures not_full { HasCause start (take 1 one_up) Refusal.HistoryFull → ⊥ }
    ensures few_open { HasCause start after_both Refusal.TooManyOpen → ⊥ }
    ensures memory { HasCause start after_both Refusal.NoMemory }
{}

/// 1 to 16 lists of jobs may be handed in, and 1 to 100 tries.
pub fn how_many_there_may_be()
    ensures no_list { are_workers 0 ≡ false }
    ensures one_list { are_workers 1 ≡ true }
    ensures most_lists { are_workers 16 ≡ true }
    ensures too_many_lists { are_workers 17 ≡ false }
    ensures no_try { are_tries 0 ≡ false }
    ensures one_try { are_tries 1 ≡ true }
    ensures most_tries { are_tries 100 ≡ true }
    ensures too_many_tries { are_tries 101 ≡ false }
{}

/// With lists and tries as there may be, neither fault comes; without one, nothing was done and no
/// report is there.
pub fn a_fault_has_a_cause()
    ensures lists { (new : Stored) (reports : List ReportValue) → Works start (Some WorkFault.BadWorkers) new reports → ⊥ }
    ensures tries { (new : Stored) (reports : List ReportValue) → Works start (Some WorkFault.BadTries) new reports → ⊥ }
    ensures no_lists { Works (record start { jobs = [] }) (Some WorkFault.BadWorkers) (stored one_up) [] }
    ensures changed { Works (record start { jobs = [] }) (Some WorkFault.BadWorkers) (stored after_both) [] → ⊥ }
    ensures no_report { (new : Stored) → Works start None new [] → ⊥ }
{}
