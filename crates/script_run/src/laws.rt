//! Laws of the turns of a script: each is a function that does nothing, whose contract is the law. It
//! calls the laws on which it depends.

ghost use Rattle.script_run.specs.Laws.{AllReplayed, EachReplayed, AllAborted, EachAborted, NoneStaysOpen, TextTellsHistory, ScriptIsRead, ScriptIsByOne, RunIsInRange};

use history_text::{canonical_is_read, comments_tell_nothing};
use serial_order::{
    command_appends, numbers_in_run, opens_after, run_goes_on, summary_after, transactions_in_run,
};

/// The turns of the commands have the histories that `serial_order` defines: after all of them the
/// replay of all, and at each the replay of the commands up to its own.
pub fn commands_replay()
    ensures all { AllReplayed }
    ensures each { EachReplayed }
{}

/// The turns after the commands append an abort of each open transaction, in ascending order, one at
/// each turn.
pub fn closing_aborts()
    ensures all { AllAborted }
    ensures each { EachAborted }
{}

/// When the turns after the commands are done, no transaction is open.
pub fn closing_ends()
    ensures { NoneStaysOpen }
{
    run_goes_on();
    summary_after();
    transactions_in_run();
    opens_after();
}

/// The lines of a script that aren't comments are the canonical text of its history, which an audit
/// reads.
pub fn text_tells_history()
    ensures { TextTellsHistory }
{
    command_appends();
}

/// The lines of a script are read as its history, with comments between them and after them.
pub fn script_is_read()
    ensures { ScriptIsRead }
{
    comments_tell_nothing();
    canonical_is_read();
    text_tells_history();
}

/// Each event of a script's history is worker 0's.
pub fn script_is_by_one()
    ensures { ScriptIsByOne }
{}

/// The history of a run is in the ranges of a history's text: with at most 256 objects, whose operations
/// have places below 64 and amounts of 32 bits, and at most 1,000,000 events.
pub fn run_is_in_range()
    ensures { RunIsInRange }
{
    numbers_in_run();
}
