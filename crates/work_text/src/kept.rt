//! The lines of the kept states, as one text.

ghost use Rattle.std.specs.Prelude.{◌≡◌, None};
ghost use Rattle.work_text.specs.Text.{PutsKept};

use object_trait::Recovery;
use outputs::{Out, OutFault};
use script_run::write_states;
use store::Store;

/// Writes the kept state of each object, in order.
pub(crate) fn write_kept<R: Recovery, W: Out>(store: &Store<R>, out: &mut W) -> Result<(), OutFault>
    requires { W.fault out.old ≡ None }
    ensures { PutsKept store.now (W.taken out.old) (W.taken out.new) (W.fault out.new) result }
{
    write_states(store, out)
}
