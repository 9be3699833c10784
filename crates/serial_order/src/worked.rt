//! Worked histories: each function does nothing, and its contract is what comes out of them.
#![tactic(auto, unfolding(type_table::specs::Table::next))]

ghost use Rattle.std.specs.Prelude.{◌≡◌, ◌≤◌, List, true, false, [], ◌∷◌, Some, None, take, codes, ◌==◌};
ghost use Rattle.type_table.specs.Table.{next};
ghost use Rattle.type_table.specs.Run.{run, Looks};
ghost use Rattle.type_table.specs.Examples.{counter_table, one_way};
ghost use Rattle.object_trait.specs.Examples.{held, done_entry, counter_at};
ghost use Rattle.table_checker.specs.At.{checked_at};
ghost use Rattle.table_checker.specs.Checked.{Checked};
ghost use Rattle.serial_order.specs.Operations.{ops};
ghost use Rattle.serial_order.specs.History.{summary, commits, surviving, IsHistory};
ghost use Rattle.serial_order.specs.View.{view, is_legal_after, is_alone, conflicts_with};
ghost use Rattle.serial_order.specs.Machine.{IsRun, MayFollow};
ghost use Rattle.serial_order.specs.Serial.{serial_at, serial_state, IsSerial};
ghost use Rattle.serial_order.specs.Represent.{struck_at, Represents, KeptAgrees};
ghost use Rattle.serial_order.specs.Readings.{survivors};
ghost use Rattle.serial_order.specs.Answer.{event_of_call};
ghost use Rattle.serial_order.specs.Replay.{open_count, refusal, replay};
ghost use Rattle.serial_order.specs.After.{summary_next, is_open_after, AreBelow, CountsTo, beginners};
ghost use Rattle.serial_order.specs.Held.{held_at, held_after, own_after};
ghost use Rattle.serial_order.specs.Laws.{IsSerialAndKept};
ghost use Rattle.store_limits.specs.Standard.{standard_with};
ghost use Rattle.serial_order.specs.Examples.{events, one_open, entry, seen_first, undo_one_way, undo_counter, deferred_counter, undo_semiqueue, undo_account, one_way_history, semiqueue_history, deferred_history, lock_history, two_objects_history, unlocked_history, refused_history, reader_history, half_history, half_deferred_history, up_and_back, number_object, number_history, short_history, three_of_five, takers_history};
ghost use Rattle.serial_order.specs.Epochs.{serial_over, types_after, types_at};
ghost use Rattle.serial_order.specs.EpochExamples.{up, up_and_down_epochs};

use crate::command::Command;
use crate::laws::checked_headline;
use crate::refusal::Refusal;
use object_trait::{Event, EventKind};
use type_table::Kind;

/// In a run of the one-way type q is executed before p, whose transaction commits first, so that the
/// serial order has p before q.
pub fn commit_order_is_another_than_that_of_execution()
    ensures runs { IsRun (undo_one_way ∷ []) one_way_history }
    ensures commits { commits one_way_history ≡ 1 ∷ 0 ∷ [] }
    ensures serial { serial_at 0 one_way_history ≡ entry 1 0 0 ∷ entry 0 0 1 ∷ [] }
{}

/// The serial state allows r, which the kept one doesn't: it doesn't look like the kept one.
pub fn the_kept_state_may_allow_less()
    ensures serial { serial_state undo_one_way 0 one_way_history ≡ Some 4 }
    ensures kept { run one_way (Some 0) (ops (view Kind.Undo (summary one_way_history) 0 2)) ≡ Some 3 }
    ensures allows { next one_way 4 2 ≡ Some 4 }
    ensures refuses { next one_way 3 2 ≡ None }
    ensures other_way { Looks one_way (serial_state undo_one_way 0 one_way_history) (Some 3) → ⊥ }
{}

/// Two transactions take from a semiqueue of two items while both are open, each another item, and
/// the second commits first.
pub fn two_take_from_a_semiqueue()
    ensures runs { IsRun (undo_semiqueue ∷ []) semiqueue_history }
    ensures first { event_of_call undo_semiqueue (seen_first 6 semiqueue_history) 0 1 2 ≡ EventKind.Op 2 1 0 }
    ensures second { event_of_call undo_semiqueue (seen_first 7 semiqueue_history) 0 2 2 ≡ EventKind.Op 3 2 0 }
    ensures commits { commits semiqueue_history ≡ 0 ∷ 2 ∷ 1 ∷ [] }
    ensures serial { serial_at 0 semiqueue_history ≡ entry 0 0 0 ∷ entry 0 0 1 ∷ entry 2 0 3 ∷ entry 1 0 2 ∷ [] }
    ensures state { serial_state undo_semiqueue 0 semiqueue_history ≡ Some 0 }
{}

/// With deferred update, what one transaction counted up another can't count down before the commit,
/// and can after it.
pub fn what_is_not_committed_is_not_seen()
    ensures runs { IsRun (deferred_counter ∷ []) deferred_history }
    ensures before { event_of_call deferred_counter (seen_first 3 deferred_history) 0 0 1 ≡ EventKind.None 0 0 1 }
    ensures after { event_of_call deferred_counter (seen_first 5 deferred_history) 0 0 1 ≡ EventKind.Op 1 0 0 }
    ensures state { serial_state deferred_counter 0 deferred_history ≡ Some 0 }
{}

/// With update in place, a rollback gives up the lock that kept another transaction from counting
/// down.
pub fn a_rollback_gives_up_the_lock()
    ensures runs { IsRun (undo_counter ∷ []) lock_history }
    ensures before { event_of_call undo_counter (seen_first 4 lock_history) 0 1 1 ≡ EventKind.Busy 1 1 0 0 }
    ensures busy { MayFollow (undo_counter ∷ []) (take 4 lock_history) (record { worker = 0; kind = EventKind.Busy 1 1 0 0 }) }
    ensures left { (seen_first 5 lock_history).survives ≡ entry 1 0 0 ∷ [] }
    ensures after { event_of_call undo_counter (seen_first 5 lock_history) 0 1 1 ≡ EventKind.Op 1 1 0 }
    ensures commits { commits lock_history ≡ 1 ∷ 0 ∷ [] }
    ensures serial { serial_at 0 lock_history ≡ entry 1 0 0 ∷ entry 1 0 1 ∷ [] }
    ensures state { serial_state undo_counter 0 lock_history ≡ Some 0 }
{}

/// What one event changes: a commit ends its transaction, a rollback leaves it open, and both were
/// begun by worker 0.
pub fn an_event_changes_what_it_says()
    ensures rolled_back { summary_next (seen_first 4 lock_history) (EventKind.Rollback 0 1) ≡ seen_first 5 lock_history }
    ensures committed { summary_next (seen_first 6 lock_history) (EventKind.Commit 1) ≡ seen_first 7 lock_history }
    ensures ended { is_open_after (seen_first 6 lock_history) (EventKind.Commit 1) 1 ≡ false }
    ensures other { is_open_after (seen_first 6 lock_history) (EventKind.Commit 1) 0 ≡ true }
    ensures counted { CountsTo (EventKind.Commit 1) (open_count (seen_first 6 lock_history)) (open_count (seen_first 7 lock_history)) }
    ensures workers { beginners lock_history ≡ 0 ∷ 0 ∷ [] }
{}

/// After the rollback of one operation another transaction's is still held; after a commit its
/// transaction holds nothing.
pub fn a_rollback_leaves_what_others_hold()
    ensures before { held_at 0 (seen_first 4 lock_history) ≡ entry 0 0 0 ∷ entry 1 0 0 ∷ [] }
    ensures rolled_back { held_after 0 (seen_first 4 lock_history) (EventKind.Rollback 0 1) ≡ entry 1 0 0 ∷ [] }
    ensures committed { held_after 0 (seen_first 6 lock_history) (EventKind.Commit 1) ≡ [] }
    ensures own { own_after 0 (seen_first 4 two_objects_history) (EventKind.Rollback 0 2) ≡ entry 0 0 0 ∷ [] }
{}

/// A rollback of two operations strikes one at each of two objects.
pub fn a_rollback_goes_over_two_objects()
    ensures runs { IsRun (undo_counter ∷ deferred_counter ∷ []) two_objects_history }
    ensures struck_first { struck_at 0 (seen_first 4 two_objects_history) 0 2 ≡ 1 }
    ensures struck_second { struck_at 1 (seen_first 4 two_objects_history) 0 2 ≡ 1 }
    ensures represents { surviving two_objects_history ≡ entry 0 0 0 ∷ [] }
    ensures as_read { survivors two_objects_history ≡ entry 0 0 0 ∷ [] }
    ensures first_state { serial_state undo_counter 0 two_objects_history ≡ Some 1 }
    ensures second_state { serial_state deferred_counter 1 two_objects_history ≡ Some 0 }
{}

/// An operation can't follow where it conflicts with one that another open transaction holds, isn't
/// legal, or is of a transaction that ended; nor can an answer that a transaction waits for itself.
pub fn some_events_cannot_follow()
    ensures conflict { MayFollow (undo_counter ∷ []) (take 3 lock_history) (record { worker = 0; kind = EventKind.Op 1 1 0 }) → ⊥ }
    ensures illegal { MayFollow (undo_counter ∷ []) (take 2 lock_history) (record { worker = 0; kind = EventKind.Op 1 1 0 }) → ⊥ }
    ensures ended { MayFollow (undo_counter ∷ []) lock_history (record { worker = 0; kind = EventKind.Op 0 1 0 }) → ⊥ }
    ensures itself { MayFollow (undo_counter ∷ []) (take 4 lock_history) (record { worker = 0; kind = EventKind.Busy 1 1 0 1 }) → ⊥ }
{}

/// In a history transactions are open where they act, begin by their numbers, act at objects that are
/// there, and strike no more than they did.
pub fn some_lists_are_no_histories()
    ensures unopened { IsHistory (one_way ∷ []) (events (EventKind.Begin 0 ∷ EventKind.Commit 1 ∷ [])) → ⊥ }
    ensures misnumbered { IsHistory (one_way ∷ []) (events (EventKind.Begin 1 ∷ [])) → ⊥ }
    ensures objectless { IsHistory (one_way ∷ []) (events (EventKind.Begin 0 ∷ EventKind.Op 0 0 1 ∷ [])) → ⊥ }
    ensures overdone { IsHistory (one_way ∷ []) (events (EventKind.Begin 0 ∷ EventKind.Rollback 0 1 ∷ [])) → ⊥ }
{}

/// The headline at these runs: of a counter in place, of a deferred one, and of one of each. The checker
/// says yes for the counter and both kinds that have a conflict table.
pub fn the_headline_speaks_of_these_runs()
    ensures in_place { IsSerialAndKept (undo_counter ∷ []) lock_history }
    ensures deferred { IsSerialAndKept (deferred_counter ∷ []) deferred_history }
    ensures both { IsSerialAndKept (undo_counter ∷ deferred_counter ∷ []) two_objects_history }
{
    a_rollback_gives_up_the_lock();
    what_is_not_committed_is_not_seen();
    a_rollback_goes_over_two_objects();
    checked_headline();
}

/// Not each history is serially legal: here the serial order counts down from 0. The locks don't admit
/// it.
pub fn a_history_may_not_be_serial()
    ensures history { IsHistory (counter_table ∷ []) unlocked_history }
    ensures serial { serial_at 0 unlocked_history ≡ entry 1 0 1 ∷ entry 0 0 0 ∷ [] }
    ensures illegal { IsSerial (undo_counter ∷ []) unlocked_history → ⊥ }
    ensures locked { IsRun (undo_counter ∷ []) unlocked_history → ⊥ }
{}

/// With update in place, what a committed transaction did may be in the log or be settled in base.
pub fn a_counter_in_place_represents_two_ups()
    ensures runs { IsRun (undo_counter ∷ []) half_history }
    ensures logged { Represents (counter_at Kind.Undo 0 (done_entry 0 0 ∷ held 1 0 ∷ [])) 0 half_history }
    ensures settled { Represents (counter_at Kind.Undo 1 (held 1 0 ∷ [])) 0 half_history }
    ensures lost { Represents (counter_at Kind.Undo 1 []) 0 half_history → ⊥ }
{}

/// With deferred update, base is the committed state, and the log what an open transaction did.
pub fn a_deferred_counter_represents_up_and_down()
    ensures runs { IsRun (deferred_counter ∷ []) half_deferred_history }
    ensures deferred { Represents (counter_at Kind.Intentions 1 (held 0 1 ∷ [])) 0 half_deferred_history }
    ensures done_at_once { Represents (counter_at Kind.Intentions 0 (held 0 1 ∷ [])) 0 half_deferred_history → ⊥ }
{}

/// Whether a kept state agrees is asked of an object in place where no transaction is open, and of a
/// deferred one always.
pub fn a_kept_state_may_not_agree()
    ensures in_place { KeptAgrees (counter_at Kind.Undo 1 []) 0 lock_history → ⊥ }
    ensures not_asked { KeptAgrees (counter_at Kind.Undo 0 []) 0 half_history }
    ensures deferred { KeptAgrees (counter_at Kind.Intentions 0 (held 0 1 ∷ [])) 0 half_deferred_history → ⊥ }
{}

/// The same replies are those of operations. An answer `None` is none: here transaction 0 was answered that
/// it can't count down, and in the serial order, after transaction 1, it could.
pub fn an_answer_none_is_not_replayed()
    ensures runs { IsRun (undo_counter ∷ []) refused_history }
    ensures commits { commits refused_history ≡ 1 ∷ 0 ∷ [] }
    ensures serial { serial_at 0 refused_history ≡ entry 1 0 0 ∷ [] }
    ensures possible { is_legal_after undo_counter (serial_at 0 refused_history) 1 ≡ true }
{}

/// Nor is an operation that was taken back: here transaction 0 read a balance of 0 and took that back,
/// and in the serial order, after transaction 1, it would read 1.
pub fn a_reply_that_was_taken_back_is_not_replayed()
    ensures runs { IsRun (undo_account ∷ []) reader_history }
    ensures locked { event_of_call undo_account (seen_first 3 reader_history) 0 1 0 ≡ EventKind.Busy 0 1 0 0 }
    ensures commits { commits reader_history ≡ 1 ∷ 0 ∷ [] }
    ensures serial { serial_at 0 reader_history ≡ entry 1 0 0 ∷ [] }
    ensures not_so { is_legal_after undo_account (serial_at 0 reader_history) 1 ≡ false }
    ensures instead { is_legal_after undo_account (serial_at 0 reader_history) 2 ≡ true }
{}

/// The first reason that holds is given, from `NotOpen` on.
pub fn a_refusal_is_the_first_that_holds()
    ensures unopened { refusal (undo_counter ∷ []) (standard_with 20) [] (Command.Commit 0) ≡ Some Refusal.NotOpen }
    ensures ended { refusal (undo_counter ∷ []) (standard_with 20) lock_history (Command.Call 1 5 (codes "inc:1")) ≡ Some Refusal.NotOpen }
    ensures objectless { refusal (undo_counter ∷ []) (standard_with 20) (take 3 lock_history) (Command.Call 0 1 (codes "inc:1")) ≡ Some Refusal.NoObject }
    ensures nameless { refusal (undo_counter ∷ []) (standard_with 20) (take 3 lock_history) (Command.Call 0 0 (codes "inc:2")) ≡ Some Refusal.NoCall }
{}

/// A rollback strikes from one operation to all that its transaction has.
pub fn a_rollback_has_its_range()
    ensures none { refusal (undo_counter ∷ []) (standard_with 20) (take 3 lock_history) (Command.Rollback 0 0) ≡ Some Refusal.BadRollback }
    ensures more { refusal (undo_counter ∷ []) (standard_with 20) (take 3 lock_history) (Command.Rollback 0 2) ≡ Some Refusal.BadRollback }
    ensures all { refusal (undo_counter ∷ []) (standard_with 20) (take 3 lock_history) (Command.Rollback 0 1) ≡ None }
{}

/// After three events, with two open transactions, one more event needs room for six, a begin for
/// seven, since it has its own end, and a commit for none.
pub fn room_is_kept_for_the_ends()
    ensures call { refusal (undo_counter ∷ []) (standard_with 6) (take 3 lock_history) (Command.Call 0 0 (codes "inc:1")) ≡ None }
    ensures full { refusal (undo_counter ∷ []) (standard_with 5) (take 3 lock_history) (Command.Call 0 0 (codes "inc:1")) ≡ Some Refusal.HistoryFull }
    ensures begin { refusal (undo_counter ∷ []) (standard_with 7) (take 3 lock_history) Command.Begin ≡ None }
    ensures full_to_begin { refusal (undo_counter ∷ []) (standard_with 6) (take 3 lock_history) Command.Begin ≡ Some Refusal.HistoryFull }
    ensures commit { refusal (undo_counter ∷ []) (standard_with 0) (take 3 lock_history) (Command.Commit 0) ≡ None }
{}

/// No transaction begins where as many are open as the store's limit is.
pub fn no_more_are_open_than_the_limit()
    ensures standard { (H : List Event) → 1024 ≤ open_count (summary H) → refusal (undo_counter ∷ []) (standard_with 5000) H Command.Begin ≡ Some Refusal.TooManyOpen }
    ensures one { refusal (undo_counter ∷ []) one_open (take 1 lock_history) Command.Begin ≡ Some Refusal.TooManyOpen }
    ensures none_yet { refusal (undo_counter ∷ []) one_open [] Command.Begin ≡ None }
{}

/// Commands become events, but for those that are refused, and those at which memory was refused.
pub fn commands_are_replayed()
    ensures all { replay (undo_counter ∷ []) (standard_with 4) (λ _. false) [] up_and_back ≡ events (EventKind.Begin 0 ∷ EventKind.Op 0 0 0 ∷ EventKind.Rollback 0 1 ∷ EventKind.Commit 0 ∷ []) }
    ensures full { replay (undo_counter ∷ []) (standard_with 3) (λ _. false) [] up_and_back ≡ events (EventKind.Begin 0 ∷ EventKind.Op 0 0 0 ∷ EventKind.Commit 0 ∷ []) }
    ensures memory_refused { replay (undo_counter ∷ []) (standard_with 4) (λ place. place == 1) [] up_and_back ≡ events (EventKind.Begin 0 ∷ EventKind.Commit 0 ∷ []) }
{}

/// Events with numbers below this many objects, operations and events, and some that have others.
pub fn numbers_are_below()
    ensures at_most { AreBelow 2 3 9 (EventKind.Op 2 8 1) }
    ensures another_object { AreBelow 2 3 9 (EventKind.Op 2 8 2) → ⊥ }
    ensures nothing_struck { AreBelow 2 3 9 (EventKind.Rollback 8 0) → ⊥ }
{}

/// A counter is counted up in one epoch and down in the next: the serial order is both, and the types begin at
/// what was kept last. An object of which nothing was kept has no place in the next epoch; one that is added begins as its type does.
pub fn one_up_and_one_down()
    ensures serial { serial_over 0 up_and_down_epochs ≡ 0 ∷ 1 ∷ [] }
    ensures others { serial_over 1 up_and_down_epochs ≡ [] }
    ensures behind_one { (c : Checked) → types_after (c ∷ []) (up ∷ []) ≡ checked_at c 1 ∷ [] }
    ensures behind_both { (c : Checked) → types_after (c ∷ []) up_and_down_epochs ≡ checked_at c 0 ∷ [] }
    ensures left_out { (c d : Checked) → types_at (c ∷ d ∷ []) (1 ∷ []) ≡ checked_at c 1 ∷ [] }
    ensures added { (c d : Checked) → types_after (c ∷ []) (record up { added = d ∷ [] } ∷ []) ≡ checked_at c 1 ∷ d ∷ [] }
{}

/// Under escrow two transactions take and give beside each other. A third is kept from giving by the one
/// that gives, from taking by the one that takes, and, when that has committed, from being answered that
/// there is too little by the one that gives.
#[tactic(auto, unfolding(type_table::specs::Table::next, escrow_laws::specs::Bounds::steps_of))]
pub fn numbers_are_taken_and_given()
    ensures takes { event_of_call number_object (seen_first 3 number_history) 0 0 0 ≡ EventKind.Op 0 0 0 }
    ensures gives { event_of_call number_object (seen_first 4 number_history) 0 1 2 ≡ EventKind.Op 2 1 0 }
    ensures kept_from_giving { event_of_call number_object (seen_first 5 number_history) 0 2 2 ≡ EventKind.Busy 2 2 0 1 }
    ensures kept_from_taking { event_of_call number_object (seen_first 5 number_history) 0 2 0 ≡ EventKind.Busy 0 2 0 0 }
    ensures not_yet_short { event_of_call number_object (seen_first 6 number_history) 0 2 0 ≡ EventKind.Busy 0 2 0 1 }
    ensures short { event_of_call number_object (seen_first 7 number_history) 0 2 0 ≡ EventKind.Op 1 2 0 }
    ensures runs { IsRun (number_object ∷ []) number_history }
{}

/// A reply `short` is held: another may not give. The one that holds it may.
#[tactic(auto, unfolding(type_table::specs::Table::next, escrow_laws::specs::Bounds::steps_of))]
pub fn a_short_reply_is_held()
    ensures held { event_of_call number_object (summary short_history) 0 1 2 ≡ EventKind.Busy 2 1 0 0 }
    ensures own { event_of_call number_object (summary short_history) 0 0 2 ≡ EventKind.Op 2 0 0 }
{}

/// Of 3, one takes 1 and another 2, and a third gives 2 and asks for 4. Both keep it from that. The second
/// does so alone, and is named, though it came later. Without the second nobody does.
#[tactic(auto, unfolding(type_table::specs::Table::next, escrow_laws::specs::Bounds::steps_of))]
pub fn who_keeps_alone_is_named()
    ensures first { conflicts_with three_of_five (seen_first 6 takers_history) 0 2 2 (entry 0 0 0) ≡ true }
    ensures first_not_alone { is_alone three_of_five (seen_first 6 takers_history) 0 2 2 (entry 0 0 0) ≡ false }
    ensures second_alone { is_alone three_of_five (seen_first 6 takers_history) 0 2 2 (entry 1 0 1) ≡ true }
    ensures named { event_of_call three_of_five (seen_first 6 takers_history) 0 2 2 ≡ EventKind.Busy 2 2 0 1 }
    ensures without { event_of_call three_of_five (seen_first 7 takers_history) 0 2 2 ≡ EventKind.Op 2 2 0 }
    ensures runs { IsRun (three_of_five ∷ []) takers_history }
{}
