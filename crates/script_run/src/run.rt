//! A whole script.

ghost use Rattle.std.specs.Prelude.{◌≡◌, [], length, None};
ghost use Rattle.script_run.specs.Runs.{RunsScript};

use crate::kept::write_states;
use crate::last_aborts::abort_all;
use crate::objects::write_objects;
use crate::script_commands::run_commands;
use object_trait::Recovery;
use outputs::{Out, OutFault, put_line};
use script_text::Script;
use store::Store;

/// Runs a script on a store that has no history and an object for each `object` line, and writes its
/// text: the `object` lines; for each command, asked as worker 0, the line of its event or of its
/// refusal; the line of an abort of each transaction that is still open, in ascending order; `end`;
/// and a line for the kept state of each object. Each line is handed to the output before the next
/// command is asked. It takes no memory itself.
///
/// # Errors
///
/// The fault that stopped the output, which then took a beginning of the text. The store comes back as
/// it is after the command whose line failed.
pub fn run_script<R: Recovery, W: Out>(
    mut store: Store<R>,
    script: &Script,
    out: &mut W,
) -> (Store<R>, Result<(), OutFault>)
    requires out_takes { W.fault out.old ≡ None }
    requires fresh { store.history ≡ [] }
    requires objects { length store.types ≡ length script.now.objects.items }
    ensures { RunsScript store script.now (W.taken out.old) (W.taken out.new) (W.fault out.new) result.0 result.1 }
{
    let result = write_run(&mut store, script, out);
    (store, result)
}

/// Runs a script on a store, and writes its text.
fn write_run<R: Recovery, W: Out>(
    store: &mut Store<R>,
    script: &Script,
    out: &mut W,
) -> Result<(), OutFault>
    requires { W.fault out.old ≡ None }
    ensures { RunsScript store.old script.now (W.taken out.old) (W.taken out.new) (W.fault out.new) store.new result }
{
    write_objects(out, script.objects.as_slice())?;
    run_commands(store, &script.commands, out)?;
    abort_all(store, out)?;
    put_line(out, b"end", &[])?;
    write_states(store, out)
}
