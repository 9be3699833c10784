//! The lines on all pairs.

ghost use Rattle.std.specs.Prelude.{◌≡◌, ◌∷◌, [], None, length, if◌then◌else◌};
ghost use Rattle.std.specs.List.{flat_map};
ghost use Rattle.outputs.specs.Out.{Puts};
ghost use Rattle.need_text.specs.Text.{op_word, listed_words, op_words, ops_line, letter_text, letters, row_line, row_text, pair_text, is_plain, explanation_text, letter, word_of};

use crate::pair_lines::write_pair;
use declared_types::TypeFile;
use outputs::{Out, OutFault, items_in_turn, put, put_all, texts_in_turn};
use pair_needs::{Explained, Need, Row};
use type_table::{Op, StateSet, TableKind, TypeTable};

/// Writes a line for each requested operation, with a letter for each held one, and then the lines on
/// each pair that is in the conflict table or has to be. It takes no memory.
///
/// # Errors
///
/// The fault that stopped the output, which then took a beginning of the text.
pub fn write_rows<W: Out>(
    kind: TableKind,
    file: &TypeFile,
    led: &StateSet,
    rows: &[Row],
    out: &mut W,
) -> Result<(), OutFault>
    requires no_fault { W.fault out.old ≡ None }
    requires fits { length led.now ≡ file.now.table.states }
    ensures { Puts (W.taken out.old) (W.taken out.new) (W.fault out.new) (explanation_text kind file.now led.now rows.now) result }
{
    texts_in_turn();
    write_letters(&file.table, rows, out)?;
    write_notes(kind, file, led, rows, out)
}

/// Writes the `row` lines.
fn write_letters<W: Out>(table: &TypeTable, rows: &[Row], out: &mut W) -> Result<(), OutFault>
    requires { W.fault out.old ≡ None }
    ensures { Puts (W.taken out.old) (W.taken out.new) (W.fault out.new) (flat_map (row_line table.now) rows.now) result }
{
    texts_in_turn();
    items_in_turn::<Row>();
    for row in rows {
        write_row(table, row, out)?;
    }
    Ok(())
}

/// Writes a `row` line.
fn write_row<W: Out>(table: &TypeTable, row: &Row, out: &mut W) -> Result<(), OutFault>
    requires { W.fault out.old ≡ None }
    ensures { Puts (W.taken out.old) (W.taken out.new) (W.fault out.new) (row_line table.now row.now) result }
{
    texts_in_turn();
    put(out, b"row")?;
    write_ops(table, &[row.requested], out)?;
    write_row_letters(&row.pairs, out)?;
    put(out, b"\n")
}

/// Writes the letters of a row, each after a space.
fn write_row_letters<W: Out>(pairs: &[Explained], out: &mut W) -> Result<(), OutFault>
    requires { W.fault out.old ≡ None }
    ensures { Puts (W.taken out.old) (W.taken out.new) (W.fault out.new) (letters pairs.now) result }
{
    texts_in_turn();
    items_in_turn::<Explained>();
    for pair in pairs {
        write_letter(pair, out)?;
    }
    Ok(())
}

/// Writes the letter of a pair after a space.
pub fn write_letter<W: Out>(pair: &Explained, out: &mut W) -> Result<(), OutFault>
    requires { W.fault out.old ≡ None }
    ensures { Puts (W.taken out.old) (W.taken out.new) (W.fault out.new) (letter_text pair.now) result }
{
    put(out, &[b' ', letter(pair.listed, pair.need)])
}

/// The letter of a pair.
pub fn letter(listed: bool, need: Need) -> u8
    ensures { result ≡ letter listed need }
{
    match (listed, need) {
        (true, Need::Run) => b'N',
        (true, Need::File) => b'F',
        (true, Need::Strong) => b'S',
        (true, Need::Nothing) => b'U',
        (false, Need::Run) => b'n',
        (false, Need::File) => b'f',
        (false, Need::Strong) => b's',
        (false, Need::Nothing) => b'.',
    }
}

/// Writes the lines on each pair of each row.
fn write_notes<W: Out>(
    kind: TableKind,
    file: &TypeFile,
    led: &StateSet,
    rows: &[Row],
    out: &mut W,
) -> Result<(), OutFault>
    requires no_fault { W.fault out.old ≡ None }
    requires fits { length led.now ≡ file.now.table.states }
    ensures { Puts (W.taken out.old) (W.taken out.new) (W.fault out.new) (flat_map (row_text kind file.now led.now) rows.now) result }
{
    texts_in_turn();
    items_in_turn::<Row>();
    for row in rows {
        write_row_notes(kind, file, led, &row.pairs, out)?;
    }
    Ok(())
}

/// Writes the lines on each pair of a row that is in the conflict table or has to be.
fn write_row_notes<W: Out>(
    kind: TableKind,
    file: &TypeFile,
    led: &StateSet,
    pairs: &[Explained],
    out: &mut W,
) -> Result<(), OutFault>
    requires no_fault { W.fault out.old ≡ None }
    requires fits { length led.now ≡ file.now.table.states }
    ensures { Puts (W.taken out.old) (W.taken out.new) (W.fault out.new)
        (flat_map (λ e. if is_plain e then [] else pair_text kind file.now led.now e) pairs.now) result }
{
    texts_in_turn();
    items_in_turn::<Explained>();
    for pair in pairs {
        write_if_noted(kind, file, led, pair, out)?;
    }
    Ok(())
}

/// Writes the lines on a pair that is in the conflict table or has to be.
fn write_if_noted<W: Out>(
    kind: TableKind,
    file: &TypeFile,
    led: &StateSet,
    pair: &Explained,
    out: &mut W,
) -> Result<(), OutFault>
    requires no_fault { W.fault out.old ≡ None }
    requires fits { length led.now ≡ file.now.table.states }
    ensures { Puts (W.taken out.old) (W.taken out.new) (W.fault out.new)
        (if is_plain pair.now then [] else pair_text kind file.now led.now pair.now) result }
{
    if letter(pair.listed, pair.need) == b'.' {
        return Ok(());
    }
    write_pair(kind, file, led, pair, out)
}

/// Writes operations of a table, each after a space.
pub fn write_ops<W: Out>(table: &TypeTable, ops: &[u8], out: &mut W) -> Result<(), OutFault>
    requires { W.fault out.old ≡ None }
    ensures { Puts (W.taken out.old) (W.taken out.new) (W.fault out.new) (op_words table.now ops.now) result }
{
    write_listed(table.ops(), ops, out)
}

/// Writes operations of these by their numbers, each after a space.
fn write_listed<W: Out>(ops: &[Op], numbers: &[u8], out: &mut W) -> Result<(), OutFault>
    requires { W.fault out.old ≡ None }
    ensures { Puts (W.taken out.old) (W.taken out.new) (W.fault out.new) (listed_words ops.now numbers.now) result }
{
    texts_in_turn();
    items_in_turn::<u8>();
    for k in numbers {
        write_op(ops, *k, out)?;
    }
    Ok(())
}

/// Writes an operation after a space.
fn write_op<W: Out>(ops: &[Op], k: u8, out: &mut W) -> Result<(), OutFault>
    requires { W.fault out.old ≡ None }
    ensures { Puts (W.taken out.old) (W.taken out.new) (W.fault out.new) (32 ∷ op_word ops.now k) result }
{
    texts_in_turn();
    put(out, b" ")?;
    write_numbered(ops, k, out)
}

/// Writes the operation of a number.
fn write_numbered<W: Out>(ops: &[Op], k: u8, out: &mut W) -> Result<(), OutFault>
    requires { W.fault out.old ≡ None }
    ensures { Puts (W.taken out.old) (W.taken out.new) (W.fault out.new) (op_word ops.now k) result }
{
    match ops.get(usize::from(k)) {
        None => Ok(()),
        Some(op) => write_word(op, out),
    }
}

/// Writes an operation: its call, a slash, its reply.
fn write_word<W: Out>(op: &Op, out: &mut W) -> Result<(), OutFault>
    requires { W.fault out.old ≡ None }
    ensures { Puts (W.taken out.old) (W.taken out.new) (W.fault out.new) (word_of op.now) result }
{
    put_all(out, &[op.call.as_bytes(), b"/", op.reply.as_bytes()])
}

/// Writes an operation after a space.
pub fn write_spaced<W: Out>(op: &Op, out: &mut W) -> Result<(), OutFault>
    requires { W.fault out.old ≡ None }
    ensures { Puts (W.taken out.old) (W.taken out.new) (W.fault out.new) (32 ∷ word_of op.now) result }
{
    put_all(out, &[b" ", op.call.as_bytes(), b"/", op.reply.as_bytes()])
}

/// Writes a line of a keyword and operations.
pub fn write_ops_line<W: Out>(
    keyword: &[u8],
    table: &TypeTable,
    ops: &[u8],
    out: &mut W,
) -> Result<(), OutFault>
    requires { W.fault out.old ≡ None }
    ensures { Puts (W.taken out.old) (W.taken out.new) (W.fault out.new) (ops_line keyword.now table.now ops.now) result }
{
    texts_in_turn();
    put(out, keyword)?;
    write_ops(table, ops, out)?;
    put(out, b"\n")
}
