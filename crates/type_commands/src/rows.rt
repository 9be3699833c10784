//! Escrow: the lines of a type's rows.

ghost use Rattle.std.specs.Prelude.{◌≡◌, ◌++◌, ◌∷◌, [], ◌<◌, ℕ, All, None, codes, length, slice_get, true};
ghost use Rattle.need_text.specs.Numeric.{bounds_line};
ghost use Rattle.need_text.specs.Text.{word_of};
ghost use Rattle.number_types.specs.Operations.{number_rows, number_table};
ghost use Rattle.outputs.specs.Out.{Puts};
ghost use Rattle.declared_types.specs.Declarations.{file_of, number_file, rows_of};
ghost use Rattle.type_table.specs.Table.{has_op};
ghost use Rattle.type_table.specs.declared.kind.Kind.TheVariants as kinds;
ghost use Rattle.type_commands.specs.Rows.{any_bounds, any_op_at, any_ops, any_words, number_row_line, type_row_line, rows_text};

use declared_types::{Declaration, DeclaredType};
use itoa::Buffer;
use need_text::write_bounds;
use number_types::{NumberCall, NumberFile};
use outputs::{Out, OutFault, items_in_turn, put, put_all, texts_in_turn};
use table_checker::CheckedType;
use type_table::{Op, Operation};

/// An operation of a number of which there is one for each amount.
#[derive(Clone, Copy)]
pub enum AnyOp {
    /// It takes the amount.
    Take,
    /// There is less than would be taken.
    Short,
    /// It gives the amount.
    Give,
    /// There is no room for what would be given.
    Full,
    /// The number is this.
    Value,
}

/// Writes the lines of rows of a type: their bounds, where a row's call takes any amount by that amount N.
///
/// # Errors
///
/// The fault that stopped the output, which then took a beginning of the text.
pub fn write_row_lines<W: Out>(
    declared: &DeclaredType,
    checked: &CheckedType,
    rows: &[u8],
    out: &mut W,
) -> Result<(), OutFault>
    requires no_fault { W.fault out.old ≡ None }
    requires numeric { checked.now.kind ≡ kinds.Escrow }
    requires same { checked.now.file ≡ file_of declared.now }
    requires inside { All (λ k. k < length (rows_of declared.now)) rows.now }
    ensures { Puts (W.taken out.old) (W.taken out.new) (W.fault out.new) (rows_text declared.now rows.now) result }
{
    texts_in_turn();
    items_in_turn::<u8>();
    for k in rows {
        write_row_line(declared, checked, *k, out)?;
    }
    Ok(())
}

/// Writes the line of a row.
fn write_row_line<W: Out>(
    declared: &DeclaredType,
    checked: &CheckedType,
    k: u8,
    out: &mut W,
) -> Result<(), OutFault>
    requires no_fault { W.fault out.old ≡ None }
    requires numeric { checked.now.kind ≡ kinds.Escrow }
    requires same { checked.now.file ≡ file_of declared.now }
    requires inside { k < length (rows_of declared.now) }
    ensures { Puts (W.taken out.old) (W.taken out.new) (W.fault out.new) (type_row_line declared.now k) result }
{
    let row = declared.rows()[usize::from(k)];
    // (read for its clause on what is known of a name)
    let _call = row.call.as_bytes();
    match declared.declaration() {
        Declaration::Table(_) => write_op_line(checked, k, out),
        Declaration::Number(number) => write_number_line(number, checked, k, row, out),
    }
}

/// Writes the line of a number's row.
fn write_number_line<W: Out>(
    number: &NumberFile,
    checked: &CheckedType,
    k: u8,
    row: Op,
    out: &mut W,
) -> Result<(), OutFault>
    requires no_fault { W.fault out.old ≡ None }
    requires numeric { checked.now.kind ≡ kinds.Escrow }
    requires same { checked.now.file ≡ number_file number.now }
    requires row { slice_get (number_rows number.now) k ≡ Some row }
    ensures { Puts (W.taken out.old) (W.taken out.new) (W.fault out.new) (number_row_line number.now k (any_op_at number.now k)) result }
{
    // (read for its clause on what is known of a number)
    let _calls = number.calls();
    match any_op_at(number, k) {
        Some(op) => write_any_line(number.max(), op, row, out),
        None => write_op_line(checked, k, out),
    }
}

/// The operation of a row, where there is one for each amount.
fn any_op_at(number: &NumberFile, k: u8) -> Option<AnyOp>
    ensures { result ≡ any_op_at number.now k }
{
    let call = *number.calls().get(usize::from(k / 2))?;
    any_op_of(call, k % 2)
}

fn any_op_of(call: NumberCall, place: u8) -> Option<AnyOp>
    ensures { result ≡ slice_get (any_ops call) place }
{
    match (call, place) {
        (NumberCall::TakeAny, 0) => Some(AnyOp::Take),
        (NumberCall::TakeAny, 1) => Some(AnyOp::Short),
        (NumberCall::GiveAny, 0) => Some(AnyOp::Give),
        (NumberCall::GiveAny, 1) => Some(AnyOp::Full),
        (NumberCall::Value, 0) => Some(AnyOp::Value),
        _ => None,
    }
}

/// Writes the line of an operation that is listed.
fn write_op_line<W: Out>(checked: &CheckedType, k: u8, out: &mut W) -> Result<(), OutFault>
    requires no_fault { W.fault out.old ≡ None }
    requires numeric { checked.now.kind ≡ kinds.Escrow }
    requires there { has_op checked.now.file.table k ≡ true }
    ensures { Puts (W.taken out.old) (W.taken out.new) (W.fault out.new) (bounds_line checked.now.file.table k) result }
{
    write_bounds(checked, &[Operation::listed(k)], out)
}

/// Writes the line of a row of any amount.
fn write_any_line<W: Out>(max: u32, op: AnyOp, row: Op, out: &mut W) -> Result<(), OutFault>
    requires { W.fault out.old ≡ None }
    ensures { Puts (W.taken out.old) (W.taken out.new) (W.fault out.new) (codes "bounds" ++ (32 ∷ word_of row ++ (any_words (any_bounds max op) ++ 10 ∷ []))) result }
{
    texts_in_turn();
    put(out, b"bounds")?;
    write_word(row, out)?;
    write_any_words(max, op, out)?;
    put(out, b"\n")
}

/// Writes the word of a row after a space.
fn write_word<W: Out>(row: Op, out: &mut W) -> Result<(), OutFault>
    requires { W.fault out.old ≡ None }
    ensures { Puts (W.taken out.old) (W.taken out.new) (W.fault out.new) (32 ∷ word_of row) result }
{
    put_all(
        out,
        &[b" ", row.call.as_bytes(), b"/", row.reply.as_bytes()],
    )
}

/// Writes from where to where an operation of any amount is legal, and how far it moves.
fn write_any_words<W: Out>(max: u32, op: AnyOp, out: &mut W) -> Result<(), OutFault>
    requires { W.fault out.old ≡ None }
    ensures { Puts (W.taken out.old) (W.taken out.new) (W.fault out.new) (any_words (any_bounds max op)) result }
{
    let mut buffer = Buffer::new();
    let max = buffer.format(max).as_bytes();
    match op {
        AnyOp::Take => put_all(out, &[b" N ", max, b" -N"]),
        AnyOp::Short => put(out, b" 0 N-1 0"),
        AnyOp::Give => put_all(out, &[b" 0 ", max, b"-N +N"]),
        AnyOp::Full => put_all(out, &[b" ", max, b"-N+1 ", max, b" 0"]),
        AnyOp::Value => put(out, b" N N 0"),
    }
}
