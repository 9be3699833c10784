//! `run`: a script at a store of its objects, and the audit of the history.

ghost use Rattle.std.specs.Prelude.{◌≡◌, [], None, length, map};
ghost use Rattle.command_files.specs.Answers.{ComesOr};
ghost use Rattle.store.specs.Ends.{AreFresh};
ghost use Rattle.object_types.specs.Types.{value_of};
ghost use Rattle.store_commands.specs.StoreAudit.{new_store, text_limits};
ghost use Rattle.store_commands.specs.Runs.{BeginsRun, BeginsRunFile, HasRunFault, IsWholeRun, RunsFile, RunsOf, WritesRunFile};

use crate::limits::text_limits;
use crate::store_audit::tell_audit;
use command_files::{Fault, Source, Verdict, put_answer, read_file};
use object_trait::Recovery;
use objects::new_objects;
use outputs::Out;
use script_run::run_script;
use script_text::Script;
use std::alloc::Global;
use std::sync::Arc;
use store::Store;
use store_files::{ObjectTypes, ScriptFormat, object_line, types_for};
use table_checker::CheckedType;

/// `run SCRIPT TYPE...`: yes with the text of the run and the lines of its audit, which is never a no; or
/// no with the line of the first object whose type isn't accepted.
///
/// # Errors
///
/// A file can't be read or its text has a fault, no TYPE word is at an object's place, an object of another
/// kind than escrow names a number, memory was refused, or the output failed.
pub fn run_file<'a, S: Source, W: Out>(
    alloc: Global,
    script: &'a str,
    types: &[&'a str],
    source: &mut S,
    out: &mut W,
) -> Result<Verdict, Fault<'a>>
    requires { W.fault out.old ≡ None }
    ensures { let words = map (λ p. p.now) types.now in let holds = S.holds source.old in
        ComesOr (WritesRunFile holds script.now words) (BeginsRunFile holds script.now words) (RunsFile holds script.now words) (HasRunFault holds script.now words) result (W.taken out.old) (W.taken out.new) }
{
    let read = read_file(alloc, &ScriptFormat, script, source)?;
    match types_for(alloc, script, &read.objects, types, source)? {
        ObjectTypes::Accepted(types) => run_at(alloc, &read, &types, out),
        ObjectTypes::Refused { x, refusal } => {
            let line = object_line(alloc, x, refusal)?;
            put_answer(Verdict::No, line.as_bytes(), out)
        }
    }
}

/// Runs a script at a new store of these types.
fn run_at<'a, W: Out>(
    alloc: Global,
    script: &Script,
    types: &[Arc<CheckedType>],
    out: &mut W,
) -> Result<Verdict, Fault<'a>>
    requires out_takes { W.fault out.old ≡ None }
    requires objects { length (map value_of types.now) ≡ length script.now.objects.items }
    ensures { ComesOr (IsWholeRun script.now (map value_of types.now)) (BeginsRun script.now (map value_of types.now)) (RunsOf script.now (map value_of types.now)) ⊥ result (W.taken out.old) (W.taken out.new) }
{
    let objects = new_objects(alloc, types)?;
    match Store::with_limits(alloc, objects, text_limits(script.size, script.max)) {
        Ok(store) => run_from(alloc, store, script, types, out),
        // the objects are new and as many as the text may have, and the limits are in their ranges
        Err(_) => Err(Fault::NoMemory),
    }
}

/// Runs a script at a store of these types, which has no history, audits it and closes it.
fn run_from<'a, R: Recovery, W: Out>(
    alloc: Global,
    store: Store<R>,
    script: &Script,
    types: &[Arc<CheckedType>],
    out: &mut W,
) -> Result<Verdict, Fault<'a>>
    requires out_takes { W.fault out.old ≡ None }
    requires fresh { store ≡ new_store (map value_of types.now) (text_limits script.now.size script.now.max) }
    requires objects { length (map value_of types.now) ≡ length script.now.objects.items }
    ensures { ComesOr (IsWholeRun script.now (map value_of types.now)) (BeginsRun script.now (map value_of types.now)) (RunsOf script.now (map value_of types.now)) ⊥ result (W.taken out.old) (W.taken out.new) }
{
    let (store, written) = run_script(store, script, out);
    let told = match written {
        Ok(()) => tell_audit(alloc, &store, types, out),
        Err(_) => Err(Fault::Output),
    };
    let _ = store.close();
    told
}
