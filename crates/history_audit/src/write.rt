//! The lines of an audit.

ghost use Rattle.std.specs.Prelude.{◌≡◌, None, Ok, Err};
ghost use Rattle.std.specs.List.{flat_map, enumerate_from};
ghost use Rattle.outputs.specs.Out.{Puts};
ghost use Rattle.history_audit.specs.Text.{committed_line, serial_line, audit_text};

use history_judge::{Audit, AuditFault};
use itoa::Buffer;
use outputs::{Out, OutFault, items_in_turn, put_line, texts_in_turn};

/// Writes the lines of an audit: after a yes one for it, one for each committed transaction in commit order, and
/// one for each object with its serial state; else one for the fault, and none where memory was refused. It takes
/// no memory.
///
/// # Errors
///
/// The fault that stopped the output, which then took a beginning of the lines.
pub fn write_audit<W: Out>(outcome: &Result<Audit, AuditFault>, out: &mut W) -> Result<(), OutFault>
    requires { W.fault out.old ≡ None }
    ensures { Puts (W.taken out.old) (W.taken out.new) (W.fault out.new) (audit_text outcome.now) result }
{
    match outcome {
        Ok(audit) => write_yes(audit, out),
        Err(fault) => write_fault(*fault, out),
    }
}

/// Writes the lines of a yes.
fn write_yes<W: Out>(audit: &Audit, out: &mut W) -> Result<(), OutFault>
    requires { W.fault out.old ≡ None }
    ensures { Puts (W.taken out.old) (W.taken out.new) (W.fault out.new) (audit_text (Ok audit.now)) result }
{
    texts_in_turn();
    let (order, finals) = (audit.order.as_slice(), audit.finals.as_slice());
    put_line(out, b"#", &[b"audit", b"yes"])?;
    write_order(order, out)?;
    write_finals(finals, out)
}

/// Writes the lines of the committed transactions.
fn write_order<W: Out>(order: &[u32], out: &mut W) -> Result<(), OutFault>
    requires { W.fault out.old ≡ None }
    ensures { Puts (W.taken out.old) (W.taken out.new) (W.fault out.new) (flat_map committed_line order.now) result }
{
    texts_in_turn();
    items_in_turn::<u32>();
    for t in order {
        write_commit(*t, out)?;
    }
    Ok(())
}

/// Writes the line of a committed transaction, of which there may be many.
fn write_commit<W: Out>(t: u32, out: &mut W) -> Result<(), OutFault>
    requires { W.fault out.old ≡ None }
    ensures { Puts (W.taken out.old) (W.taken out.new) (W.fault out.new) (committed_line t) result }
{
    out.put_numbers(b"# commit", &[t])
}

/// Writes the lines of the objects.
pub fn write_finals<W: Out>(finals: &[u32], out: &mut W) -> Result<(), OutFault>
    requires { W.fault out.old ≡ None }
    ensures { Puts (W.taken out.old) (W.taken out.new) (W.fault out.new) (flat_map serial_line (enumerate_from 0 finals.now)) result }
{
    texts_in_turn();
    items_in_turn::<(usize, u32)>();
    for (x, state) in finals.iter().enumerate() {
        write_serial(x, *state, out)?;
    }
    Ok(())
}

/// Writes the line of an object with its serial state.
fn write_serial<W: Out>(x: usize, state: u32, out: &mut W) -> Result<(), OutFault>
    requires { W.fault out.old ≡ None }
    ensures { Puts (W.taken out.old) (W.taken out.new) (W.fault out.new) (serial_line (x, state)) result }
{
    let (mut place, mut number) = (Buffer::new(), Buffer::new());
    put_line(
        out,
        b"#",
        &[
            b"serial",
            place.format(x).as_bytes(),
            number.format(state).as_bytes(),
        ],
    )
}

/// Writes the line of a fault, and none where memory was refused.
fn write_fault<W: Out>(fault: AuditFault, out: &mut W) -> Result<(), OutFault>
    requires { W.fault out.old ≡ None }
    ensures { Puts (W.taken out.old) (W.taken out.new) (W.fault out.new) (audit_text (Err fault)) result }
{
    match fault {
        AuditFault::BadEvent { at } => write_bad(at, out),
        AuditFault::IllegalOp {
            commit_index,
            object,
            op_index,
        } => write_illegal(commit_index, object, op_index, out),
        AuditFault::NoMemory => Ok(()),
    }
}

/// Writes the line of a bad event.
fn write_bad<W: Out>(at: usize, out: &mut W) -> Result<(), OutFault>
    requires { W.fault out.old ≡ None }
    ensures { Puts (W.taken out.old) (W.taken out.new) (W.fault out.new) (audit_text (Err (AuditFault.BadEvent at))) result }
{
    let mut place = Buffer::new();
    put_line(
        out,
        b"#",
        &[b"audit", b"no", b"BadEvent", place.format(at).as_bytes()],
    )
}

/// Writes the line of an operation that isn't legal.
fn write_illegal<W: Out>(
    commit_index: usize,
    object: u32,
    op_index: usize,
    out: &mut W,
) -> Result<(), OutFault>
    requires { W.fault out.old ≡ None }
    ensures { Puts (W.taken out.old) (W.taken out.new) (W.fault out.new) (audit_text (Err (AuditFault.IllegalOp commit_index object op_index))) result }
{
    let (mut first, mut second, mut third) = (Buffer::new(), Buffer::new(), Buffer::new());
    put_line(
        out,
        b"#",
        &[
            b"audit",
            b"no",
            b"IllegalOp",
            first.format(commit_index).as_bytes(),
            second.format(object).as_bytes(),
            third.format(op_index).as_bytes(),
        ],
    )
}
