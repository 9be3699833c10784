//! Laws of the rows: each is a function that does nothing, whose contract is the law.

ghost use Rattle.std.specs.Prelude.{[]};
ghost use Rattle.serial_order.specs.History.{summary};
ghost use Rattle.history_judge.specs.Moves.{MovedRowsAgree};
ghost use Rattle.history_judge.specs.Rows.{AreRowsOf};

use serial_order::{history_opens_after, own_after, summary_after};

/// Before the first event there are no rows.
pub fn nothing_began()
    ensures { AreRowsOf [] (summary []) }
{}

/// Where rows agree with some events, the rows to which one more leads agree with these and it.
pub fn moved_rows_agree()
    ensures { MovedRowsAgree }
{
    summary_after();
    history_opens_after();
    own_after();
}
