//! The `object` lines of a running script.

ghost use Rattle.std.specs.Prelude.{◌≡◌, map, None};
ghost use Rattle.std.specs.Result.{result_err};
ghost use Rattle.store_laws.specs.Stored.{Stored};
ghost use Rattle.script_run.specs.Turns.{object_turn, object_turns};
ghost use Rattle.script_run.specs.Runs.{Writes};

use history_text::{write_object, write_size};
use outputs::{Out, OutFault};
use store_text::ObjectLine;

/// Writes the `objects` line, where there has to be one, and the `object` lines, whatever the store is.
pub(crate) fn write_objects<W: Out>(out: &mut W, objects: &[ObjectLine]) -> Result<(), OutFault>
    requires { W.fault out.old ≡ None }
    ensures writes { (s : Stored) → Writes s (object_turns s.history objects.now) (W.taken out.old) (W.taken out.new) (W.fault out.new) s result }
    ensures fault { W.fault out.new ≡ result_err result }
{
    write_size(out, objects)?;
    write_each(out, objects)
}

/// Writes the `object` lines.
fn write_each<W: Out>(out: &mut W, objects: &[ObjectLine]) -> Result<(), OutFault>
    requires { W.fault out.old ≡ None }
    ensures writes { (s : Stored) → Writes s (map (object_turn s.history) objects.now) (W.taken out.old) (W.taken out.new) (W.fault out.new) s result }
    ensures fault { W.fault out.new ≡ result_err result }
{
    for object in objects {
        write_object(out, object)?;
    }
    Ok(())
}
