//! How the program ends.

ghost use Rattle.std.specs.Prelude.{◌≡◌, ◌⊎◌, OnOk, OnErr};
ghost use Rattle.command_files.specs.Status.{status_of};
ghost use Rattle.commands.specs.Concluded.{Concludes, IsPartHandedOn, IsHandedOn};
ghost use Rattle.outputs.specs.Gathered.{taken_by, under};

use crate::console::Console;
use command_files::{Fault, Status, Verdict, say_fault};
use outputs::{Gathered, Out, OutFault};
use std::alloc::Global;

/// Hands on what is gathered, says the fault where there is one, and answers the status. Where the output
/// failed nothing is said.
pub(crate) fn conclude<W: Out, E: Out>(
    alloc: Global,
    answer: Result<Verdict, Fault<'_>>,
    console: Console<W, E>,
) -> (Status, Console<W, E>)
    ensures { Concludes answer.entry (taken_by W.taken console.out) result.0 (W.taken (under result.1.out)) (E.taken console.err) (E.taken result.1.err) }
{
    let mut console = console;
    let status = match (hand_on(&mut console.out), answer) {
        (Err(_), _) => Status::Failed,
        (Ok(()), Ok(verdict)) => verdict.status(),
        (Ok(()), Err(fault)) => say(alloc, &fault, &mut console.err),
    };
    (status, console)
}

/// Says a fault where standard error didn't fail before, and answers its status.
fn say<E: Out>(alloc: Global, fault: &Fault<'_>, err: &mut E) -> Status
    ensures { (result ≡ status_of fault.now) ⊎ (result ≡ Status.Failed) }
{
    match err.fault() {
        None => say_fault(alloc, fault, err),
        Some(_) => fault.status(),
    }
}

/// Hands on what is gathered.
///
/// # Errors
///
/// The output failed, now or before, and took a beginning of it.
fn hand_on<W: Out>(out: &mut Gathered<W>) -> Result<(), OutFault>
    ensures all { OnOk result (IsHandedOn (taken_by W.taken out.old) (W.taken (under out.new))) }
    ensures part { OnErr result (IsPartHandedOn (taken_by W.taken out.old) (W.taken (under out.new))) }
{
    match out.fault() {
        Some(fault) => Err(fault),
        None => out.flush(),
    }
}
