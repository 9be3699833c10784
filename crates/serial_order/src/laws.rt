//! Laws of histories, of the machine and of objects that represent a history, up to the headline:
//! each is a function that does nothing, whose contract is the law. It calls the laws on which it
//! depends.

ghost use Rattle.serial_order.specs.After.{SummaryAfter, TransactionsInRun, OpensAfter, HistoryOpensAfter, BeginnersAfter, NumbersInRun, OperationsInRun, LogsAreCounted, IdleIsClosed};
ghost use Rattle.serial_order.specs.Held.{HeldAfter, BlockerIsHeld, OwnAfter};
ghost use Rattle.serial_order.specs.Waiting.{BusyNamesWhoKeeps};
ghost use Rattle.serial_order.specs.Laws.{RunIsHistory, RunGoesOn, SurvivesAsRead, FirstOpIsLeast, AnswerMayFollow, ReplayRuns, CommandAppends, RefusedAppendsNothing, ReplaysJoin, SortsIntoCommitOrder, StruckViewIsLegal, ViewsAreLegal, CommitKeepsViews, FreshRepresents, RepresentsOn, AllowsAlike, StopperIsBlocker, MachineMayApply, Headline, CheckedHeadline};

use crate::entry::Entry;
use escrow_laws::{
    firm_after_apply, firm_after_commit, firm_after_strike, firm_is_legal, fresh_is_firm,
    nothing_keeps,
};
use object_trait::{checked_is_covered, parts_sort, sorts_equi, sorts_look, struck_part};
use type_table::{ends_inside, legal_ends, lists_forward, runs_along};

/// Each run of the machine is a history.
#[tactic(auto, using(crate::proofs::Histories::run_is_history))]
pub fn run_is_history()
    ensures { RunIsHistory }
{}

/// A run goes on by any event that may follow.
#[tactic(auto, using(crate::proofs::Histories::run_goes_on))]
pub fn run_goes_on()
    ensures { RunGoesOn }
{}

/// What a history says after one more event follows from what it said before.
#[tactic(auto, using(crate::proofs::After::seen_after_one))]
pub fn summary_after()
    ensures { SummaryAfter }
{}

/// What is known of the transactions of each run: they began before they ended, none both committed
/// and aborted, and the operations that survive are of those that didn't abort.
#[tactic(auto, using(crate::proofs::After::are_in_run))]
pub fn transactions_in_run()
    ensures { TransactionsInRun }
{}

/// Who is open after an event that may come next, and how many are.
#[tactic(auto, using(crate::proofs::Opens::opens_after))]
pub fn opens_after()
    ensures { OpensAfter }
{}

/// Who is open after an event that continues a history, and that what is known of the transactions
/// of a run stays so, whether the machine allows the event or not.
#[tactic(auto, using(crate::proofs::After::history_opens_after))]
pub fn history_opens_after()
    ensures { HistoryOpensAfter }
{}

/// Who began each transaction of a history, after one more event.
pub fn beginners_after()
    ensures { BeginnersAfter }
{}

/// What open transactions hold at an object after an event that may come next.
#[tactic(auto, using(crate::proofs::Held::held_after_one))]
pub fn held_after()
    ensures { HeldAfter }
{}

/// What keeps a transaction from an operation is, of the operations held by others that conflict with
/// it, the earliest one whose transaction does so alone; where none does, the earliest.
#[tactic(auto, using(crate::proofs::Held::blocker_is_held))]
pub fn blocker_is_held()
    ensures { BlockerIsHeld }
{}

/// In escrow, whom `Busy` names as one that alone keeps a transaction from an operation does so while the
/// transaction still waits for it, whatever the others do.
pub fn busy_names_who_keeps()
    ensures { BusyNamesWhoKeeps }
{
    runs_along();
}

/// The operations of one transaction that survive, after one more event.
#[tactic(auto, using(crate::proofs::Held::own_after_one))]
pub fn own_after()
    ensures { OwnAfter }
{}

/// Each operation that survives in a run is one of its object's table.
#[tactic(auto, using(crate::proofs::Opens::operations_in_run))]
pub fn operations_in_run()
    ensures { OperationsInRun }
{}

/// The numbers in a run's events are below those of its objects, of their operations and of its
/// events.
#[tactic(auto, using(crate::proofs::Numbers::numbers_in_run))]
pub fn numbers_in_run()
    ensures { NumbersInRun }
{}

/// Of an object that represents a history: its log is no longer than the history, and the open
/// entries of an open transaction are its operations that survive there.
#[tactic(auto, using(crate::proofs::RepresentCounts::logs_are_counted))]
pub fn logs_are_counted()
    ensures { LogsAreCounted }
{}

/// Where no open transaction has an operation at an object that represents a run, none is open there.
#[tactic(auto, using(crate::proofs::RepresentCounts::idle_is_closed))]
pub fn idle_is_closed()
    ensures { IdleIsClosed }
{}

/// What survives is each operation after which its transaction doesn't abort and, up to no event, took
/// back more than it executed since: by counts of events, and not by striking from a list.
#[tactic(auto, using(crate::proofs::Readings::survives_as_read))]
pub fn survives_as_read()
    ensures { SurvivesAsRead }
{}

/// The operation that a name finds is one of the table, and the least of its call.
#[tactic(auto, using(crate::proofs::Replays::first_op_is_least))]
pub fn first_op_is_least()
    ensures { FirstOpIsLeast }
{}

/// The answer of a call, as defined, is one that the machine allows, also where it is `Busy` or
/// `None`.
pub fn answer_may_follow()
    ensures { AnswerMayFollow }
{}

/// The history after any list of commands is a run, wherever memory is refused.
#[tactic(auto, using(crate::proofs::Replays::replay_runs))]
pub fn replay_runs()
    ensures { ReplayRuns }
{
    run_goes_on();
}

/// Where memory isn't refused, a command that isn't refused appends its event and nothing else, and
/// that event may follow. A refused command appends nothing.
#[tactic(auto, using(crate::proofs::Replays::command_appends, crate::proofs::Replays::refused_appends_nothing))]
pub fn command_appends()
    ensures accepted { CommandAppends }
    ensures refused { RefusedAppendsNothing }
{}

/// The history after two lists of commands is the one after the second, from the one after the first
/// on.
#[tactic(auto, using(crate::proofs::Replays::replays_join))]
pub fn replays_join()
    ensures { ReplaysJoin }
{}

/// Commit order: at an object of update in place what survives sorts, neighbour by neighbour, into
/// commit order with the open transactions last.
#[tactic(auto, using(crate::proofs::CommitOrder::sorts_into_commit_order))]
pub fn sorts_into_commit_order()
    ensures { SortsIntoCommitOrder }
{
    runs_along();
    parts_sort::<Entry>();
    struck_part::<Entry>();
    sorts_look::<Entry>();
}

/// Strike and abort: at an object of update in place the view without the last operations of an open
/// transaction is legal. An abort is the case of all of them.
#[tactic(auto, using(crate::proofs::CommitOrder::struck_view_is_legal))]
pub fn struck_view_is_legal()
    ensures { StruckViewIsLegal }
{
    runs_along();
    parts_sort::<Entry>();
    struck_part::<Entry>();
    sorts_look::<Entry>();
}

/// In every run, what each open transaction sees is legal.
#[tactic(auto, using(crate::proofs::Views::views_are_legal))]
pub fn views_are_legal()
    ensures { ViewsAreLegal }
{
    firm_after_apply();
    firm_after_commit();
    firm_after_strike();
    nothing_keeps();
    firm_is_legal();
    fresh_is_firm();
    runs_along();
    ends_inside();
    legal_ends();
    parts_sort::<Entry>();
    struck_part::<Entry>();
    sorts_look::<Entry>();
    lists_forward();
}

/// A commit keeps the view of every other open transaction legal.
#[tactic(auto, using(crate::proofs::Views::commit_keeps_views))]
pub fn commit_keeps_views()
    ensures { CommitKeepsViews }
{
    views_are_legal();
}

/// A new object represents the empty history.
#[tactic(auto, using(crate::proofs::Representing::fresh_represents))]
pub fn fresh_represents()
    ensures { FreshRepresents }
{}

/// An object goes on representing the history by each of the seven kinds of events.
#[tactic(auto, using(crate::proofs::Representing::represents_on))]
pub fn represents_on()
    ensures { RepresentsOn }
{
    runs_along();
}

/// What an object that represents a history allows is what the view allows.
#[tactic(auto, using(crate::proofs::Allows::allows_alike))]
pub fn allows_alike()
    ensures { AllowsAlike }
{
    runs_along();
}

/// The log of an object that represents the history says who keeps a transaction from an
/// operation.
pub fn stopper_is_blocker()
    ensures { StopperIsBlocker }
{}

/// An operation that the machine allows may be executed at an object that represents the history.
pub fn machine_may_apply()
    ensures { MachineMayApply }
{
    runs_along();
}

/// The headline over definitions, for every list of objects that are covered for their kinds and
/// every run of the machine. A yes of the checker gives a covered object: `checked_headline` says it
/// with the checker's word. An interleaving that the locks admit is a run of the machine.
#[tactic(auto, using(crate::proofs::Kept::headline))]
pub fn headline()
    ensures { Headline }
{
    firm_after_apply();
    firm_after_commit();
    firm_after_strike();
    nothing_keeps();
    firm_is_legal();
    fresh_is_firm();
    runs_along();
    ends_inside();
    legal_ends();
    parts_sort::<Entry>();
    struck_part::<Entry>();
    sorts_look::<Entry>();
    sorts_equi::<Entry>();
    lists_forward();
}

/// The headline.
///
/// **Where the checker said yes for every object's type and recovery kind, then, for every
/// interleaving of calls that the locks admit, the committed transactions, run one after another in
/// commit order, give the same replies at every object; and whatever a kept state with no open
/// transaction allows, the serial state allows, and the reverse where the yes is strong.**
///
/// The replies are those of the operations in the serial order: an answer `Busy` or `None`, and the
/// reply of an operation that a rollback or an abort struck, aren't among them.
#[tactic(auto, using(crate::proofs::Checked::checked_headline))]
pub fn checked_headline()
    ensures { CheckedHeadline }
{
    checked_is_covered();
    headline();
}
