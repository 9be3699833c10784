//! The commands of a running script.

ghost use Rattle.std.specs.Prelude.{◌≡◌, ◌≤◌, ◌<◌, ◌++◌, ◌∷◌, [], List, length, None, Some, IfSome, slice_get, slice_index_or};
ghost use Rattle.object_trait.specs.declared.event.Event.{Event as EventValue};
ghost use Rattle.line_text.specs.Spelling.{spaced};
ghost use Rattle.outputs.specs.Out.{Puts};
ghost use Rattle.script_text.specs.Kept.{command_said, HasName};
ghost use Rattle.serial_order.specs.Machine.{IsRun};
ghost use Rattle.serial_order.specs.Replay.{call_at};
ghost use Rattle.serial_order.specs.declared.command.Command.TheVariants as command;
ghost use Rattle.store_laws.specs.Stored.{objects};
ghost use Rattle.script_run.specs.Found.{AreRemembered};
ghost use Rattle.script_run.specs.Lines.{event_turn_words};
ghost use Rattle.script_run.specs.Runs.{Asks, RunsCommands};

use crate::found_calls::{FoundCall, PLACES, nothing_found, remember, remembered};
use crate::lines::write_refused;
use history_text::write_event;
use object_trait::Recovery;
use outputs::{Out, OutFault};
use script_text::{CommandList, KeptCommand};
use serial_order::{Refusal, command_appends};
use std::str;
use store::Store;
use type_table::{Name, Operation};

/// Asks the commands of a store, in order, as worker 0, and writes the line of each before it asks the
/// next: that of its event, or that of its refusal.
///
/// # Errors
///
/// The fault that stopped the output. No further command was asked.
#[inline(always)]
pub(crate) fn run_commands<R: Recovery, W: Out>(
    store: &mut Store<R>,
    commands: &CommandList,
    out: &mut W,
) -> Result<(), OutFault>
    requires { W.fault out.old ≡ None }
    ensures { RunsCommands store.old commands.now (W.taken out.old) (W.taken out.new) (W.fault out.new) store.new result }
{
    let kept = commands.kept();
    let names = kept.names;
    let mut found = nothing_found();
    for place in 0..kept.commands.len() {
        let command = command_at(kept.commands, place);
        run_command(store, &command, names, &mut found, out)?;
    }
    Ok(())
}

/// The command at a place.
#[inline(always)]
fn command_at(commands: &[KeptCommand], place: usize) -> KeptCommand
    requires { place < length commands.now }
    ensures { slice_get commands.now place ≡ Some result }
{
    commands[place]
}

/// Asks one command, and writes its line.
#[inline(always)]
fn run_command<R: Recovery, W: Out>(
    store: &mut Store<R>,
    command: &KeptCommand,
    names: &[Name],
    found: &mut [Option<FoundCall>; PLACES],
    out: &mut W,
) -> Result<(), OutFault>
    requires out_takes { W.fault out.old ≡ None }
    requires named { HasName (length names.now) command.now }
    requires found { AreRemembered (objects store.old) names.now found.old }
    ensures runs { RunsCommands store.old (command_said names.now command.now ∷ []) (W.taken out.old) (W.taken out.new) (W.fault out.new) store.new result }
    ensures found { AreRemembered (objects store.new) names.now found.new }
{
    command_appends();
    known(store);
    match ask(store, command, names, found) {
        Some(refusal) => write_refused(out, refusal),
        None => write_last(out, store),
    }
}

/// Asks one command as worker 0: why it is refused.
#[inline(always)]
fn ask<R: Recovery>(
    store: &mut Store<R>,
    command: &KeptCommand,
    names: &[Name],
    found: &mut [Option<FoundCall>; PLACES],
) -> Option<Refusal>
    requires named { HasName (length names.now) command.now }
    requires found { AreRemembered (objects store.old) names.now found.old }
    ensures asks { Asks store.old (command_said names.now command.now) result store.new }
    ensures found { AreRemembered (objects store.old) names.now found.new }
{
    match *command {
        KeptCommand::Begin => store.begin(0).err(),
        KeptCommand::Call { t, x, name } => ask_call(store, t, x, name, names, found),
        KeptCommand::Commit { t } => store.commit(0, t).err(),
        KeptCommand::Abort { t } => store.abort(0, t).err(),
        KeptCommand::Rollback { t, n } => store.rollback(0, t, n).err(),
    }
}

/// Asks t's call by a name at object x, by its number where that is remembered.
#[inline(always)]
fn ask_call<R: Recovery>(
    store: &mut Store<R>,
    t: u32,
    x: u32,
    name: u32,
    names: &[Name],
    found: &mut [Option<FoundCall>; PLACES],
) -> Option<Refusal>
    requires named { name < length names.now }
    requires found { AreRemembered (objects store.old) names.now found.old }
    ensures asks { Asks store.old (command.Call t x (slice_index_or names.now name [])) result store.new }
    ensures found { AreRemembered (objects store.old) names.now found.new }
{
    match remembered(found, x, name) {
        Some(call) => store.call_op(0, t, x, call).err(),
        None => ask_by_name(store, t, x, name, names, found),
    }
}

/// Finds the number by the name, remembers it, and asks by it; by the name where there is no number.
#[inline(never)]
fn ask_by_name<R: Recovery>(
    store: &mut Store<R>,
    t: u32,
    x: u32,
    name: u32,
    names: &[Name],
    found: &mut [Option<FoundCall>; PLACES],
) -> Option<Refusal>
    requires named { name < length names.now }
    requires found { AreRemembered (objects store.old) names.now found.old }
    ensures asks { Asks store.old (command.Call t x (slice_index_or names.now name [])) result store.new }
    ensures found { AreRemembered (objects store.old) names.now found.new }
{
    let bytes = names[name as usize].as_bytes();
    let Some(call) = call_by(store, x, bytes) else {
        return store.call_bytes(0, t, x, bytes).err();
    };
    remember(found, x, name, call);
    store.call_op(0, t, x, call).err()
}

/// The number of the call at object x whose name has these bytes.
fn call_by<R: Recovery>(store: &Store<R>, x: u32, bytes: &[u8]) -> Option<Operation>
    ensures { IfSome result (λ call. call_at (slice_get (objects store.now) x) bytes.now ≡ Some call) }
{
    match str::from_utf8(bytes) {
        Ok(name) => store.call_of(x, name),
        Err(_) => None,
    }
}

/// What is known of the history of each store.
pub(crate) fn known<R: Recovery>(store: &Store<R>)
    ensures run { IsRun (objects store.now) store.now.history }
    ensures within { store.now.forgotten ≤ length store.now.history }
{
    store.history();
    store.event_count();
}

/// Writes the line of the last event of a store, which isn't forgotten.
#[inline(always)]
pub(crate) fn write_last<R: Recovery, W: Out>(out: &mut W, store: &Store<R>) -> Result<(), OutFault>
    requires { W.fault out.old ≡ None }
    ensures { (before : List EventValue) (e : EventValue) → store.now.history ≡ before ++ e ∷ [] → store.now.forgotten ≤ length before
        → Puts (W.taken out.old) (W.taken out.new) (W.fault out.new) (spaced (event_turn_words e) ++ 10 ∷ []) result }
{
    match store.history().last() {
        Some(event) => write_event(out, event),
        None => Ok(()),
    }
}
