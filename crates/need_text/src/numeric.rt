//! Escrow: the lines of the bounds of operations, and of why a type isn't numeric.

ghost use Rattle.std.specs.Prelude.{◌≡◌, ◌++◌, ◌∷◌, [], All, None, Some, true};
ghost use Rattle.std.specs.Fmt.{decimal};
ghost use Rattle.outputs.specs.Out.{Puts};
ghost use Rattle.type_table.specs.Table.{has_op};
ghost use Rattle.type_table.specs.declared.kind.Kind.TheVariants as kinds;
ghost use Rattle.escrow_laws.specs.Bounds.{bounded_at};
ghost use Rattle.need_text.specs.Text.{op_words};
ghost use Rattle.need_text.specs.Numeric.{bounds_line, bounds_text, bounds_words, fault_line, move_word, spaced_numbers, why_not_line};

use crate::write::{write_ops, write_spaced};
use escrow_laws::Bounded;
use itoa::Buffer;
use outputs::{Out, OutFault, items_in_turn, put, put_all, texts_in_turn};
use pair_needs::WhyNot;
use table_checker::CheckedType;
use type_table::{Operation, TypeTable};

/// Writes the bounds of operations, a line for each.
///
/// # Errors
///
/// The fault that stopped the output, which then took a beginning of the text.
pub fn write_bounds<W: Out>(
    checked: &CheckedType,
    ops: &[Operation],
    out: &mut W,
) -> Result<(), OutFault>
    requires no_fault { W.fault out.old ≡ None }
    requires numeric { checked.now.kind ≡ kinds.Escrow }
    requires ops { All (λ k. has_op checked.now.file.table k ≡ true) ops.now }
    ensures { Puts (W.taken out.old) (W.taken out.new) (W.fault out.new) (bounds_text checked.now.file.table ops.now) result }
{
    texts_in_turn();
    items_in_turn::<Operation>();
    for k in ops {
        write_bounds_line(checked, *k, out)?;
    }
    Ok(())
}

fn write_bounds_line<W: Out>(
    checked: &CheckedType,
    k: Operation,
    out: &mut W,
) -> Result<(), OutFault>
    requires no_fault { W.fault out.old ≡ None }
    requires numeric { checked.now.kind ≡ kinds.Escrow }
    requires operation { has_op checked.now.file.table k ≡ true }
    ensures { Puts (W.taken out.old) (W.taken out.new) (W.fault out.new) (bounds_line checked.now.file.table k) result }
{
    texts_in_turn();
    let bounds = bounds_at(checked, k);
    put(out, b"bounds")?;
    write_op_at(checked, k, out)?;
    write_bounds_words(bounds, out)?;
    put(out, b"\n")
}

/// Writes an operation of a type after a space.
fn write_op_at<W: Out>(checked: &CheckedType, k: Operation, out: &mut W) -> Result<(), OutFault>
    requires no_fault { W.fault out.old ≡ None }
    requires operation { has_op checked.now.file.table k ≡ true }
    ensures { Puts (W.taken out.old) (W.taken out.new) (W.fault out.new) (op_words checked.now.file.table (k ∷ [])) result }
{
    match checked.op(k) {
        Some(op) => write_spaced(&op, out),
        None => unreachable!(),
    }
}

/// The bounds of an operation.
fn bounds_at(checked: &CheckedType, k: Operation) -> Bounded
    requires numeric { checked.now.kind ≡ kinds.Escrow }
    requires operation { has_op checked.now.file.table k ≡ true }
    ensures { result ≡ bounded_at checked.now.file.table k }
{
    checked.bounded(k)
}

/// Writes from where to where an operation is legal, and how far it moves.
fn write_bounds_words<W: Out>(bounds: Bounded, out: &mut W) -> Result<(), OutFault>
    requires { W.fault out.old ≡ None }
    ensures { Puts (W.taken out.old) (W.taken out.new) (W.fault out.new) (bounds_words bounds) result }
{
    if bounds.high < bounds.low {
        put(out, b" never")
    } else {
        write_range(bounds, out)
    }
}

fn write_range<W: Out>(bounds: Bounded, out: &mut W) -> Result<(), OutFault>
    requires { W.fault out.old ≡ None }
    ensures { Puts (W.taken out.old) (W.taken out.new) (W.fault out.new) (spaced_numbers (bounds.low ∷ bounds.high ∷ []) ++ (32 ∷ move_word bounds)) result }
{
    texts_in_turn();
    write_numbers(&[bounds.low, bounds.high], out)?;
    write_move(bounds, out)
}

/// Writes how far an operation moves a number, after a space.
fn write_move<W: Out>(bounds: Bounded, out: &mut W) -> Result<(), OutFault>
    requires { W.fault out.old ≡ None }
    ensures { Puts (W.taken out.old) (W.taken out.new) (W.fault out.new) (32 ∷ move_word bounds) result }
{
    let mut digits = Buffer::new();
    if 0 < bounds.gives {
        put_all(out, &[b" +", digits.format(bounds.gives).as_bytes()])
    } else if 0 < bounds.takes {
        put_all(out, &[b" -", digits.format(bounds.takes).as_bytes()])
    } else {
        put(out, b" 0")
    }
}

/// Writes numbers, each after a space.
fn write_numbers<W: Out>(numbers: &[u32], out: &mut W) -> Result<(), OutFault>
    requires { W.fault out.old ≡ None }
    ensures { Puts (W.taken out.old) (W.taken out.new) (W.fault out.new) (spaced_numbers numbers.now) result }
{
    texts_in_turn();
    items_in_turn::<u32>();
    for n in numbers {
        write_number(*n, out)?;
    }
    Ok(())
}

fn write_number<W: Out>(n: u32, out: &mut W) -> Result<(), OutFault>
    requires { W.fault out.old ≡ None }
    ensures { Puts (W.taken out.old) (W.taken out.new) (W.fault out.new) (32 ∷ decimal n) result }
{
    let mut digits = Buffer::new();
    put_all(out, &[b" ", digits.format(n).as_bytes()])
}

/// Writes why an operation isn't one of a number, at a state.
///
/// # Errors
///
/// The fault that stopped the output, which then took a beginning of the line.
pub fn write_why_not<W: Out>(
    table: &TypeTable,
    k: u8,
    s: u16,
    why: WhyNot,
    out: &mut W,
) -> Result<(), OutFault>
    requires { W.fault out.old ≡ None }
    ensures { Puts (W.taken out.old) (W.taken out.new) (W.fault out.new) (why_not_line table.now k s why) result }
{
    let state = u32::from(s);
    match why {
        WhyNot::Gap { low, high } => {
            let states = [u32::from(low), state, u32::from(high)];
            write_fault(table, b"gap", k, &states, out)
        }
        WhyNot::Move { low, low_end, end } => {
            let states = [u32::from(low), u32::from(low_end), state, u32::from(end)];
            write_fault(table, b"moves", k, &states, out)
        }
    }
}

/// Writes a line of a keyword, an operation and numbers.
fn write_fault<W: Out>(
    table: &TypeTable,
    keyword: &[u8],
    k: u8,
    numbers: &[u32],
    out: &mut W,
) -> Result<(), OutFault>
    requires { W.fault out.old ≡ None }
    ensures { Puts (W.taken out.old) (W.taken out.new) (W.fault out.new) (fault_line keyword.now table.now k numbers.now) result }
{
    texts_in_turn();
    put(out, keyword)?;
    write_ops(table, &[k], out)?;
    write_numbers(numbers, out)?;
    put(out, b"\n")
}
