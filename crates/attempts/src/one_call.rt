//! An attempt of one call, all at once.

ghost use Rattle.std.specs.Prelude.{[], ◌∷◌};
ghost use Rattle.store_laws.specs.Stored.{objects};
ghost use Rattle.attempts.specs.Commands.{asked_call, asked_calls};
ghost use Rattle.attempts.specs.Made.{DoesCalls};
ghost use Rattle.attempts.specs.Numbered.{named_call};

use crate::outcome::AttemptCall;
use object_trait::Recovery;
use serial_order::{opens_after, replays_join, summary_after, transactions_in_run};
use store::Store;
use type_table::Operation;

/// Attempts these calls, as worker w, if it is one alone, all at once: the operation of its reply. None where there are more
/// or none, where the call isn't replied to, or where there is no room or no memory: then nothing has changed.
pub(crate) fn do_only<R: Recovery>(
    store: &mut Store<R>,
    w: u8,
    calls: &[AttemptCall],
) -> Option<Operation>
    ensures { DoesCalls store.old w (asked_calls calls.now) result store.new }
{
    if calls.len() != 1 {
        return None;
    }
    do_call(store, w, &calls[0])
}

/// Attempts one call, as worker w, all at once: the operation of its reply. None where the call isn't replied to, or where
/// there is no room or no memory: then nothing has changed.
pub fn do_call<R: Recovery>(store: &mut Store<R>, w: u8, call: &AttemptCall) -> Option<Operation>
    ensures { DoesCalls store.old w (asked_call call.now ∷ []) result store.new }
{
    summary_after();
    transactions_in_run();
    opens_after();
    replays_join();
    store.history();
    store.transact_bytes(w, call.at, call.name)
}

/// The same of the call with this number at object x.
#[inline(always)]
pub fn do_call_op<R: Recovery>(
    store: &mut Store<R>,
    w: u8,
    x: u32,
    c: Operation,
) -> Option<Operation>
    ensures { DoesCalls store.old w (named_call (objects store.old) x c ∷ []) result store.new }
{
    summary_after();
    transactions_in_run();
    opens_after();
    replays_join();
    store.history();
    store.transact_op(w, x, c)
}
