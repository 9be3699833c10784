//! The aborts at the end of a running script.

ghost use Rattle.std.specs.Prelude.{◌≡◌, ℕ, ◌<◌, ◌∷◌, [], filter, None};
ghost use Rattle.serial_order.specs.History.{summary, is_open};
ghost use Rattle.script_run.specs.Turns.{abort_turns, closing_turns};
ghost use Rattle.script_run.specs.Runs.{Writes};

use crate::script_commands::{known, write_last};
use object_trait::Recovery;
use outputs::{Out, OutFault};
use serial_order::{opens_after, summary_after, transactions_in_run};
use store::Store;

/// Aborts each open transaction as worker 0, in ascending order, and writes the line of each abort
/// before the next.
///
/// # Errors
///
/// The fault that stopped the output. No further transaction was aborted.
pub(crate) fn abort_all<R: Recovery, W: Out>(
    store: &mut Store<R>,
    out: &mut W,
) -> Result<(), OutFault>
    requires { W.fault out.old ≡ None }
    ensures { Writes store.old (closing_turns store.old.history) (W.taken out.old) (W.taken out.new) (W.fault out.new) store.new result }
{
    summary_after();
    transactions_in_run();
    opens_after();
    for t in 0..store.begun() {
        known(store);
        abort_open(store, t, out)?;
    }
    Ok(())
}

/// Aborts t where it is open, and writes its line.
fn abort_open<R: Recovery, W: Out>(
    store: &mut Store<R>,
    t: u32,
    out: &mut W,
) -> Result<(), OutFault>
    requires { W.fault out.old ≡ None }
    ensures { Writes store.old (abort_turns store.old.history (filter (is_open (summary store.old.history)) (t ∷ [])))
        (W.taken out.old) (W.taken out.new) (W.fault out.new) store.new result }
{
    known(store);
    match store.abort(0, t) {
        Ok(()) => write_last(out, store),
        Err(_) => Ok(()),
    }
}
