//! The lines of an audit of several histories.

ghost use Rattle.std.specs.Prelude.{◌≡◌, ◌-◌, None, Ok, length, slice_get};
ghost use Rattle.std.specs.List.{flat_map, enumerate_from};
ghost use Rattle.outputs.specs.Out.{Puts};
ghost use Rattle.history_audit.specs.EpochText.{commit_line_in, epochs_text, epoch_fault_line, finals_of, order_lines};
ghost use Rattle.history_audit.specs.Text.{serial_line};
ghost use Rattle.history_judge.specs.declared.outcome.AuditFault.TheVariants.{BadEvent, IllegalOp};

use crate::epoch_fault::EpochFault;
use crate::write::write_finals;
use history_judge::{Audit, AuditFault};
use itoa::Buffer;
use outputs::{Out, OutFault, items_in_turn, put_all, put_line, texts_in_turn};

/// Writes the lines of an audit of several histories: after a yes one for it, one for each committed transaction,
/// history after history and in each in commit order, and one for each object with the serial state in which the
/// last ends; else one for the fault, and none where memory was refused. It takes no memory.
///
/// # Errors
///
/// The fault that stopped the output, which then took a beginning of the lines.
pub fn write_epochs<W: Out>(
    outcome: &Result<Vec<Audit>, EpochFault>,
    out: &mut W,
) -> Result<(), OutFault>
    requires { W.fault out.old ≡ None }
    ensures { Puts (W.taken out.old) (W.taken out.new) (W.fault out.new) (epochs_text outcome.now) result }
{
    match outcome {
        Ok(audits) => write_audits(audits, out),
        Err(fault) => write_fault_in(fault.epoch, fault.fault, out),
    }
}

/// Writes the lines of a yes to each history.
fn write_audits<W: Out>(audits: &Vec<Audit>, out: &mut W) -> Result<(), OutFault>
    requires { W.fault out.old ≡ None }
    ensures { Puts (W.taken out.old) (W.taken out.new) (W.fault out.new) (epochs_text (Ok audits.now)) result }
{
    texts_in_turn();
    put_line(out, b"#", &[b"audit", b"yes"])?;
    write_orders(audits, out)?;
    write_last(audits, out)
}

/// Writes the lines of the committed transactions of all histories.
fn write_orders<W: Out>(audits: &[Audit], out: &mut W) -> Result<(), OutFault>
    requires { W.fault out.old ≡ None }
    ensures { Puts (W.taken out.old) (W.taken out.new) (W.fault out.new) (flat_map order_lines (enumerate_from 0 audits.now)) result }
{
    texts_in_turn();
    items_in_turn::<(usize, Audit)>();
    for (epoch, audit) in audits.iter().enumerate() {
        write_order(epoch, audit, out)?;
    }
    Ok(())
}

/// Writes the lines of the committed transactions of the history of this epoch, which has this audit.
fn write_order<W: Out>(epoch: usize, audit: &Audit, out: &mut W) -> Result<(), OutFault>
    requires { W.fault out.old ≡ None }
    ensures { Puts (W.taken out.old) (W.taken out.new) (W.fault out.new) (order_lines (epoch, audit.now)) result }
{
    write_order_in(epoch, &audit.order, out)
}

/// Writes the lines of transactions of the history of this epoch.
fn write_order_in<W: Out>(epoch: usize, order: &[u32], out: &mut W) -> Result<(), OutFault>
    requires { W.fault out.old ≡ None }
    ensures { Puts (W.taken out.old) (W.taken out.new) (W.fault out.new) (flat_map (commit_line_in epoch) order.now) result }
{
    texts_in_turn();
    items_in_turn::<u32>();
    for t in order {
        write_commit_in(epoch, *t, out)?;
    }
    Ok(())
}

/// Writes the line of a committed transaction of the history of this epoch.
fn write_commit_in<W: Out>(epoch: usize, t: u32, out: &mut W) -> Result<(), OutFault>
    requires { W.fault out.old ≡ None }
    ensures { Puts (W.taken out.old) (W.taken out.new) (W.fault out.new) (commit_line_in epoch t) result }
{
    let (mut first, mut second) = (Buffer::new(), Buffer::new());
    put_all(
        out,
        &[
            b"# commit ",
            first.format(epoch).as_bytes(),
            b".",
            second.format(t).as_bytes(),
            b"\n",
        ],
    )
}

/// Writes the lines of the objects with the states in which the last history ends.
fn write_last<W: Out>(audits: &[Audit], out: &mut W) -> Result<(), OutFault>
    requires { W.fault out.old ≡ None }
    ensures { Puts (W.taken out.old) (W.taken out.new) (W.fault out.new) (flat_map serial_line (enumerate_from 0 (finals_of (slice_get audits.now (length audits.now - 1))))) result }
{
    match audits.last() {
        Some(audit) => write_finals(&audit.finals, out),
        None => Ok(()),
    }
}

/// Writes the line of a fault of the history of this epoch, and none where memory was refused.
fn write_fault_in<W: Out>(epoch: usize, fault: AuditFault, out: &mut W) -> Result<(), OutFault>
    requires { W.fault out.old ≡ None }
    ensures { Puts (W.taken out.old) (W.taken out.new) (W.fault out.new) (epoch_fault_line epoch fault) result }
{
    match fault {
        AuditFault::BadEvent { at } => write_bad_in(epoch, at, out),
        AuditFault::IllegalOp {
            commit_index,
            object,
            op_index,
        } => write_illegal_in(epoch, commit_index, object, op_index, out),
        AuditFault::NoMemory => Ok(()),
    }
}

/// Writes the line of a bad event of the history of this epoch.
fn write_bad_in<W: Out>(epoch: usize, at: usize, out: &mut W) -> Result<(), OutFault>
    requires { W.fault out.old ≡ None }
    ensures { Puts (W.taken out.old) (W.taken out.new) (W.fault out.new) (epoch_fault_line epoch (BadEvent at)) result }
{
    let (mut first, mut second) = (Buffer::new(), Buffer::new());
    put_all(
        out,
        &[
            b"# audit no BadEvent ",
            first.format(epoch).as_bytes(),
            b".",
            second.format(at).as_bytes(),
            b"\n",
        ],
    )
}

/// Writes the line of an operation that isn't legal in the history of this epoch.
fn write_illegal_in<W: Out>(
    epoch: usize,
    commit_index: usize,
    object: u32,
    op_index: usize,
    out: &mut W,
) -> Result<(), OutFault>
    requires { W.fault out.old ≡ None }
    ensures { Puts (W.taken out.old) (W.taken out.new) (W.fault out.new) (epoch_fault_line epoch (IllegalOp commit_index object op_index)) result }
{
    let (mut first, mut second) = (Buffer::new(), Buffer::new());
    let (mut third, mut fourth) = (Buffer::new(), Buffer::new());
    put_all(
        out,
        &[
            b"# audit no IllegalOp ",
            first.format(epoch).as_bytes(),
            b".",
            second.format(commit_index).as_bytes(),
            b" ",
            third.format(object).as_bytes(),
            b" ",
            fourth.format(op_index).as_bytes(),
            b"\n",
        ],
    )
}
