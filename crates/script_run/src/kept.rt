//! The kept states at the end of a running script.

ghost use Rattle.std.specs.Prelude.{◌≡◌, ◌<◌, length, None};
ghost use Rattle.script_run.specs.Runs.{WritesKept, WritesState};

use crate::lines::write_kept;
use object_trait::Recovery;
use outputs::{Out, OutFault};
use store::Store;

/// Writes the kept state of each object, in order.
///
/// # Errors
///
/// The fault that stopped the output.
pub fn write_states<R: Recovery, W: Out>(store: &Store<R>, out: &mut W) -> Result<(), OutFault>
    requires { W.fault out.old ≡ None }
    ensures { WritesKept store.now (W.taken out.old) (W.taken out.new) (W.fault out.new) result }
{
    for x in 0..store.object_count() {
        write_state(store, x, out)?;
    }
    Ok(())
}

/// Writes the kept state of the object at x, which is there.
fn write_state<R: Recovery, W: Out>(store: &Store<R>, x: u32, out: &mut W) -> Result<(), OutFault>
    requires out_takes { W.fault out.old ≡ None }
    requires inside { x < length store.now.types }
    ensures { WritesState store.now x (W.taken out.old) (W.taken out.new) (W.fault out.new) result }
{
    match store.kept(x) {
        Some(state) => write_kept(out, x, state),
        None => Ok(()),
    }
}
