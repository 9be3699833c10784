//! Worked attempts: each function does nothing, and its contract is what comes out of them.
#![tactic(auto, unfolding(type_table::specs::Table::next))]

ghost use Rattle.std.specs.Prelude.{◌≡◌, List, [], ◌∷◌, take, false, Some, None, codes, Vec};
ghost use Rattle.std.specs.declared.alloc.Global.{Global};
ghost use Rattle.type_table.specs.declared.operation.Operation.{Operation};
ghost use Rattle.store_laws.specs.Examples.{stored, one_up};
ghost use Rattle.store.specs.Examples.{roomy, up_beside_another};
ghost use Rattle.attempts.specs.Commands.{attempt_commands, is_memory_refused_at, commands_replayed, with_kinds};
ghost use Rattle.attempts.specs.Answers.{attempt_refusal, missing_call, EndsSo, IsDoneAttempt, IsEndedAttempt};
ghost use Rattle.attempts.specs.Numbered.{named_calls};
ghost use Rattle.attempts.specs.Examples.{one_up_call, up_then_down, up_then_away, after_seven, went_up, not_down, came_back};
ghost use Rattle.store_laws.specs.Stored.{objects};

use crate::outcome::{Attempt, Ending};
use object_trait::EventKind;
use serial_order::{Command, Refusal};

/// The commands of an attempt are the begin, its calls up to the one that ended it, and its end.
pub fn an_attempt_is_these_commands()
    ensures done { (ks : Vec Operation Global) → attempt_commands 3 up_then_down (Attempt.Done ks)
        ≡ Command.Begin ∷ Command.Call 3 1 (codes "inc:1") ∷ Command.Call 3 0 (codes "dec:1") ∷ Command.Commit 3 ∷ [] }
    ensures first { attempt_commands 3 up_then_down (Attempt.Ended 0 Ending.None) ≡ Command.Begin ∷ Command.Call 3 1 (codes "inc:1") ∷ Command.Abort 3 ∷ [] }
    ensures none { attempt_commands 3 up_then_down (Attempt.NotBegun Refusal.NoMemory) ≡ [] }
{}

/// A call's number names it at its object. It names none where the object isn't there, or where no call has it.
pub fn numbers_name_calls()
    ensures names { named_calls (objects (roomy [])) (1 ∷ 0 ∷ []) (0 ∷ 1 ∷ []) ≡ up_then_down }
    ensures none { named_calls (objects (roomy [])) (9 ∷ 0 ∷ []) (0 ∷ 7 ∷ []) ≡ (9, []) ∷ (0, []) ∷ [] }
    ensures in_pairs { named_calls (objects (roomy [])) (1 ∷ 0 ∷ []) (0 ∷ []) ≡ one_up_call }
{}

/// Their replay: of a whole attempt, of one whose second call is `None`, and of one at whose second call memory was refused.
pub fn an_attempt_is_replayed()
    ensures done { (ks : Vec Operation Global) → commands_replayed (roomy []) (is_memory_refused_at (Attempt.Done ks)) 7 (attempt_commands 0 one_up_call (Attempt.Done ks)) ≡ after_seven went_up }
    ensures not_legal { commands_replayed (roomy []) (is_memory_refused_at (Attempt.Ended 1 Ending.None)) 7 (attempt_commands 0 up_then_down (Attempt.Ended 1 Ending.None)) ≡ after_seven not_down }
    ensures memory { commands_replayed (roomy []) (is_memory_refused_at (Attempt.Ended 1 (Ending.Refused Refusal.NoMemory))) 7
        (attempt_commands 0 up_then_down (Attempt.Ended 1 (Ending.Refused Refusal.NoMemory))) ≡ after_seven came_back }
{}

/// An attempt isn't begun where its begin, its calls and its end don't all fit, or where too many are open.
pub fn an_attempt_has_room_or_is_not_begun()
    ensures fits { attempt_refusal (stored []) 2 ≡ None }
    ensures full { attempt_refusal (stored []) 3 ≡ Some Refusal.HistoryFull }
    ensures beside_another { attempt_refusal (stored (take 1 one_up)) 1 ≡ Some Refusal.HistoryFull }
    ensures not_for_one_call { attempt_refusal (stored (take 1 one_up)) 0 ≡ None }
{}

/// An attempt that is done has an operation for each call, and commits.
pub fn an_attempt_is_done()
    ensures done { IsDoneAttempt (roomy []) 7 one_up_call (0 ∷ []) (after_seven went_up) }
    ensures not_without_its_end { IsDoneAttempt (roomy []) 7 one_up_call (0 ∷ []) (after_seven (take 2 went_up)) → ⊥ }
    ensures not_as_another { IsDoneAttempt (roomy []) 6 one_up_call (0 ∷ []) (after_seven went_up) → ⊥ }
    ensures not_half { IsDoneAttempt (roomy []) 7 up_then_down (0 ∷ []) (after_seven went_up) → ⊥ }
{}

/// A call is refused for its fault, or as memory was refused, and never as the history is full.
pub fn a_call_ends_an_attempt()
    ensures fault { missing_call (objects (roomy [])) (9, codes "inc:1") ≡ Some Refusal.NoObject }
    ensures refused { EndsSo (objects (roomy [])) 0 (9, codes "inc:1") (Ending.Refused Refusal.NoObject) [] }
    ensures memory { EndsSo (objects (roomy [])) 0 (1, codes "inc:1") (Ending.Refused Refusal.NoMemory) [] }
    ensures not_full { EndsSo (objects (roomy [])) 0 (1, codes "inc:1") (Ending.Refused Refusal.HistoryFull) [] → ⊥ }
    ensures not_for_memory_first { EndsSo (objects (roomy [])) 0 (9, codes "inc:1") (Ending.Refused Refusal.NoMemory) [] → ⊥ }
    ensures busy { EndsSo (objects (roomy [])) 2 (0, codes "dec:1") (Ending.Busy 0) (EventKind.Busy 1 2 0 0 ∷ []) }
    ensures holder { EndsSo (objects (roomy [])) 2 (0, codes "dec:1") (Ending.Busy 0) (EventKind.Busy 1 2 0 1 ∷ []) → ⊥ }
{}

/// One that a call ended aborts: here the second call, which is `None`, `Busy` or refused.
pub fn an_attempt_is_ended()
    ensures not_legal { IsEndedAttempt (roomy []) 7 up_then_down 1 Ending.None (after_seven not_down) }
    ensures refused { IsEndedAttempt (roomy []) 7 up_then_away 1 (Ending.Refused Refusal.NoObject) (after_seven came_back) }
    ensures busy { IsEndedAttempt (roomy up_beside_another) 4 up_then_down 1 (Ending.Busy 0)
        (with_kinds (roomy up_beside_another) 4 (EventKind.Begin 2 ∷ EventKind.Op 0 2 1 ∷ EventKind.Busy 1 2 0 0 ∷ EventKind.Abort 2 ∷ [])) }
    ensures not_open { IsEndedAttempt (roomy []) 7 up_then_down 1 Ending.None (after_seven (take 3 not_down)) → ⊥ }
    ensures not_committed { IsEndedAttempt (roomy []) 7 up_then_away 1 (Ending.Refused Refusal.NoObject) (after_seven went_up) → ⊥ }
    ensures not_the_first { IsEndedAttempt (roomy []) 7 up_then_down 0 Ending.None (after_seven not_down) → ⊥ }
{}
