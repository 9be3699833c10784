//! Laws of what the commands write: each is a function that does nothing, whose contract is the law. It
//! calls the laws on which it depends.

ghost use Rattle.store_commands.specs.HistoryTexts.{RunIsRead, WorksAreRead};

use history_audit::audits_agree;
use history_text::canonical_is_read;
use script_run::{run_is_in_range, script_is_by_one, script_is_read};
use serial_order::numbers_in_run;
use type_table::ends_within;
use work_text::work_is_read;

/// What `run` writes with a yes is the text of its store's history: it has a value, which says the
/// store's objects and events, and an audit of these has the lines that the text itself has.
pub fn run_is_read()
    ensures { RunIsRead }
{
    script_is_read();
    script_is_by_one();
    run_is_in_range();
    numbers_in_run();
    ends_within();
    canonical_is_read();
    audits_agree();
}

/// And so is what `work` or `stress` writes with a yes.
pub fn works_are_read()
    ensures { WorksAreRead }
{
    work_is_read();
    run_is_in_range();
    numbers_in_run();
    ends_within();
    canonical_is_read();
    audits_agree();
}
