//! Laws of what a store keeps: each is a function that does nothing, whose contract is the law. It
//! calls the laws on which it depends.

ghost use Rattle.store_laws.specs.Moves.{StaysKept};
ghost use Rattle.store_laws.specs.Words.{AnswersAsDefined};
ghost use Rattle.store_laws.specs.Before.{NewIsKept, RowsSayWhoIsOpen, RowsAreCounted, PlacesAreCounted, RowsAreFew, PlacesAreFew, PlacesAreInside, HasWhatIsStruck};
ghost use Rattle.store_laws.specs.Asked.{AskedIsReplayed, StepIsAsked, AnswerIsDefined};
ghost use Rattle.store_laws.specs.Events.{QuietMoves, BeginMoves, OpMoves, EndMoves, RollbackMoves, TypesStay, RoomAfter};

use object_trait::{
    checked_is_covered, fresh_is_sound, sound_after_apply, sound_after_commit, sound_after_strike,
    untouched_stays,
};
use serial_order::{
    allows_alike, beginners_after, command_appends, fresh_represents, logs_are_counted,
    machine_may_apply, opens_after, operations_in_run, own_after, represents_on, run_goes_on,
    stopper_is_blocker, summary_after, transactions_in_run,
};

/// By an event that may follow, what a store keeps goes on agreeing with its history: that it is a
/// run, what each object represents, and the row of each transaction.
pub fn stays_kept()
    ensures { StaysKept }
{
    checked_is_covered();
    sound_after_apply();
    sound_after_commit();
    sound_after_strike();
    run_goes_on();
    represents_on();
    machine_may_apply();
    logs_are_counted();
    summary_after();
    transactions_in_run();
    opens_after();
    own_after();
    beginners_after();
}

/// Where an object represents the history a call is answered as the history defines it.
pub fn answers_as_defined()
    ensures { AnswersAsDefined }
{
    allows_alike();
    stopper_is_blocker();
}

/// What a new store keeps agrees with the empty history.
#[tactic(auto, using(crate::proofs::Opens::new_is_kept))]
pub fn new_is_kept()
    ensures { NewIsKept }
{
    checked_is_covered();
    fresh_is_sound();
    fresh_represents();
}

/// A transaction is open where it has a row.
#[tactic(auto, using(crate::proofs::Opens::rows_say_who_is_open))]
pub fn rows_say_who_is_open()
    ensures { RowsSayWhoIsOpen }
{}

/// As many transactions are open as have a row.
#[tactic(auto, using(crate::proofs::Opens::rows_are_counted))]
pub fn rows_are_counted()
    ensures { RowsAreCounted }
{}

/// As many of an open transaction's operations survive as its row has places.
#[tactic(auto, using(crate::proofs::Opens::places_are_counted))]
pub fn places_are_counted()
    ensures { PlacesAreCounted }
{}

/// No more transactions began than there are events.
#[tactic(auto, using(crate::proofs::Opens::rows_are_few))]
pub fn rows_are_few()
    ensures { RowsAreFew }
{}

/// No more of an open transaction's operations survive than there are events.
#[tactic(auto, using(crate::proofs::Opens::places_are_few))]
pub fn places_are_few()
    ensures { PlacesAreFew }
{}

/// The places of an open transaction's operations are those of objects.
#[tactic(auto, using(crate::proofs::Places::places_are_inside))]
pub fn places_are_inside()
    ensures { PlacesAreInside }
{
    operations_in_run();
}

/// Wherever its last operations are, an open transaction has as many open entries as a rollback
/// strikes there.
#[tactic(auto, using(crate::proofs::Places::has_what_is_struck))]
pub fn has_what_is_struck()
    ensures { HasWhatIsStruck }
{
    logs_are_counted();
}

/// An answer `Busy` or `None` changes nothing that is kept.
#[tactic(auto, using(crate::proofs::Events::quiet_moves))]
pub fn quiet_moves()
    ensures { QuietMoves }
{}

/// A begin is one more row.
#[tactic(auto, using(crate::proofs::Events::begin_moves))]
pub fn begin_moves()
    ensures { BeginMoves }
{}

/// An operation is one more entry at its object, and one more place in its transaction's row.
pub fn op_moves()
    ensures { OpMoves }
{}

/// A commit commits, and an abort aborts, at each object where its transaction has operations. At any
/// other object nothing changes, which is such an end too.
pub fn end_moves()
    ensures { EndMoves }
{
    untouched_stays();
    logs_are_counted();
}

/// A rollback strikes the last operations of its transaction: at each object as many as are among
/// them.
pub fn rollback_moves()
    ensures { RollbackMoves }
{}

/// An event leaves the types of the objects.
pub fn types_stay()
    ensures { TypesStay }
{}

/// How much of the room in the history an event takes, with the end of each open transaction: none
/// where it ends one, two where it begins one, else one.
#[tactic(auto, using(crate::proofs::Events::room_after))]
pub fn room_after()
    ensures { RoomAfter }
{
    summary_after();
    transactions_in_run();
    opens_after();
}

/// Whatever commands a store was asked one after another, it has the history of their replay, and each
/// was answered as the replay of those before it defines.
pub fn asked_is_replayed()
    ensures { AskedIsReplayed }
{}

/// What the clause of a call says is that its command was asked.
pub fn step_is_asked<T>()
    ensures { StepIsAsked T }
{}

/// An answer that the appended event says is the one that the history before it defines.
pub fn answer_is_defined()
    ensures { AnswerIsDefined }
{
    command_appends();
}
