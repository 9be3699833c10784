//! `prepared`: the transactions that are prepared in the file of a store.

ghost use Rattle.std.specs.Prelude.{◌≡◌, ◌++◌, ◌∷◌, [], ⊤, IfErr, IfOk, None};
ghost use Rattle.std.specs.List.{flat_map};
ghost use Rattle.outputs.specs.Out.{Puts};
ghost use Rattle.command_files.specs.Answers.{Comes, IsEarlyFault};
ghost use Rattle.command_files.specs.declared.fault.Fault.TheVariants.{NoMemory};
ghost use Rattle.key_commands.specs.Prepared.{TellsPrepared, held_line, number_after_space, prepared_front};

use crate::held_transactions::{HeldTransaction, held_transactions};
use crate::reading::read_at;
use command_files::{Fault, Verdict, put_answer};
use database_files::Databases;
use itoa::Buffer;
use journal::Prepared;
use outputs::{Out, OutFault, Sink, items_in_turn, put, put_all, texts_in_turn};
use std::alloc::Global;

/// `prepared DATABASE`: a line for each transaction that is prepared and not decided, in the order in which they were
/// prepared, with the objects at which it holds operations. Nothing of the file changes.
///
/// # Errors
///
/// The database isn't opened or isn't one of a store, memory was refused, or the output failed.
pub fn tell_prepared<'a, D: Databases, W: Out>(
    alloc: Global,
    path: &'a str,
    databases: &mut D,
    out: &mut W,
) -> Result<Verdict, Fault<'a>>
    requires { W.fault out.old ≡ None }
    ensures { Comes (TellsPrepared (D.is_clean databases.new) (D.holds databases.old path.now) (D.holds databases.new path.now)) ⊤ result (W.taken out.old) (W.taken out.new) }
{
    let text = lines_at(alloc, path, databases)?;
    put_answer(Verdict::Yes, &text, out)
}

/// The lines of those of the store at a path.
fn lines_at<'a, D: Databases>(
    alloc: Global,
    path: &'a str,
    databases: &mut D,
) -> Result<Vec<u8>, Fault<'a>>
    ensures told { IfOk result (λ text. TellsPrepared (D.is_clean databases.new) (D.holds databases.old path.now) (D.holds databases.new path.now) Verdict.Yes text.items) }
    ensures refused { IfErr result (IsEarlyFault ⊤) }
{
    let reading = read_at(alloc, path, None, databases)?;
    let held = held_transactions(alloc, &reading.happened, &reading.held)?;
    let text = lines_of(alloc, &held)?;
    Ok(text)
}

/// The lines of these.
fn lines_of<'a>(alloc: Global, held: &[HeldTransaction]) -> Result<Vec<u8>, Fault<'a>>
    ensures text { IfOk result (λ text. text.items ≡ flat_map held_line held.now) }
    ensures failed { IfErr result (λ fault. fault ≡ NoMemory) }
{
    let mut text = Sink::new(Vec::new(alloc));
    match put_lines(&mut text, held) {
        Ok(()) => Ok(text.into_inner()),
        Err(_) => Err(Fault::NoMemory),
    }
}

/// Writes a line for each.
fn put_lines<W: Out>(out: &mut W, held: &[HeldTransaction]) -> Result<(), OutFault>
    requires { W.fault out.old ≡ None }
    ensures { Puts (W.taken out.old) (W.taken out.new) (W.fault out.new) (flat_map held_line held.now) result }
{
    texts_in_turn();
    items_in_turn::<HeldTransaction>();
    for one in held {
        put_held_line(out, one)?;
    }
    Ok(())
}

/// Writes the line of one.
fn put_held_line<W: Out>(out: &mut W, one: &HeldTransaction) -> Result<(), OutFault>
    requires { W.fault out.old ≡ None }
    ensures { Puts (W.taken out.old) (W.taken out.new) (W.fault out.new) (held_line one.now) result }
{
    texts_in_turn();
    put_prepared(out, &one.prepared)?;
    put_objects(out, &one.objects)
}

/// Writes the beginning of the line of one: all but the objects.
fn put_prepared<W: Out>(out: &mut W, one: &Prepared) -> Result<(), OutFault>
    requires { W.fault out.old ≡ None }
    ensures { Puts (W.taken out.old) (W.taken out.new) (W.fault out.new) (prepared_front one.now) result }
{
    let (mut life, mut number, mut until) = (Buffer::new(), Buffer::new(), Buffer::new());
    put_all(
        out,
        &[
            one.key.as_bytes(),
            b" ",
            life.format(one.given.life).as_bytes(),
            b".",
            number.format(one.given.number).as_bytes(),
            b" ",
            until.format(one.until).as_bytes(),
        ],
    )
}

/// Writes the numbers of objects, each after a space, and ends the line.
fn put_objects<W: Out>(out: &mut W, objects: &[u32]) -> Result<(), OutFault>
    requires { W.fault out.old ≡ None }
    ensures { Puts (W.taken out.old) (W.taken out.new) (W.fault out.new) (flat_map number_after_space objects.now ++ (10 ∷ [])) result }
{
    texts_in_turn();
    put_each_object(out, objects)?;
    put(out, b"\n")
}

/// Writes the numbers of objects, each after a space.
fn put_each_object<W: Out>(out: &mut W, objects: &[u32]) -> Result<(), OutFault>
    requires { W.fault out.old ≡ None }
    ensures { Puts (W.taken out.old) (W.taken out.new) (W.fault out.new) (flat_map number_after_space objects.now) result }
{
    texts_in_turn();
    items_in_turn::<u32>();
    for x in objects {
        put_object(out, x)?;
    }
    Ok(())
}

/// Writes the number of an object after a space.
fn put_object<W: Out>(out: &mut W, x: &u32) -> Result<(), OutFault>
    requires { W.fault out.old ≡ None }
    ensures { Puts (W.taken out.old) (W.taken out.new) (W.fault out.new) (number_after_space x.now) result }
{
    let mut digits = Buffer::new();
    put_all(out, &[b" ", digits.format(*x).as_bytes()])
}
