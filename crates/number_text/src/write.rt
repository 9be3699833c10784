//! The canonical text of a number.

ghost use Rattle.std.specs.Prelude.{◌≡◌, ◌++◌, ◌∷◌, [], map, None, OnOk, true};
ghost use Rattle.line_text.specs.Spelling.{spaced, text_of};
ghost use Rattle.type_table.specs.Name.{is_name};
ghost use Rattle.outputs.specs.Out.{Puts};
ghost use Rattle.number_text.specs.Canonical.{call_words, words_of, canonical_text, IsReadBack};

use crate::laws::canonical_is_read;
use crate::number_line::NumberLine;
use number_types::{NumberCall, NumberFile};
use outputs::{Out, OutFault, items_in_turn, put_line, texts_in_turn};

/// Writes the canonical text of a number. What is read from the text is the same number. It takes no
/// memory itself.
///
/// # Errors
///
/// The fault that stopped the output, which then took a beginning of the text.
pub fn write_number<W: Out>(file: &NumberFile, out: &mut W) -> Result<(), OutFault>
    requires { W.fault out.old ≡ None }
    ensures writes { Puts (W.taken out.old) (W.taken out.new) (W.fault out.new) (canonical_text file.now) result }
    ensures read_back { OnOk result (IsReadBack file.now) }
{
    canonical_is_read();
    texts_in_turn();
    write_head(out, file)?;
    write_calls(out, file.calls())?;
    put_line(out, b"end", &[])
}

/// Writes the first three lines.
fn write_head<W: Out>(out: &mut W, file: &NumberFile) -> Result<(), OutFault>
    requires { W.fault out.old ≡ None }
    ensures writes { Puts (W.taken out.old) (W.taken out.new) (W.fault out.new)
        (text_of words_of (NumberLine.Called file.now.name ∷ NumberLine.Max file.now.max ∷ NumberLine.Initial file.now.initial ∷ [])) result }
    ensures named { OnOk result (is_name file.now.name ≡ true) }
{
    texts_in_turn();
    put_line(out, b"number", &[file.name().as_bytes()])?;
    out.put_numbers(b"max", &[file.max()])?;
    out.put_numbers(b"initial", &[file.initial()])
}

/// Writes the lines of the calls.
fn write_calls<W: Out>(out: &mut W, calls: &[NumberCall]) -> Result<(), OutFault>
    requires { W.fault out.old ≡ None }
    ensures { Puts (W.taken out.old) (W.taken out.new) (W.fault out.new) (text_of words_of (map NumberLine.Call calls.now)) result }
{
    texts_in_turn();
    items_in_turn::<NumberCall>();
    for listed in calls {
        write_call(out, *listed)?;
    }
    Ok(())
}

/// Writes the line of a call.
fn write_call<W: Out>(out: &mut W, call: NumberCall) -> Result<(), OutFault>
    requires { W.fault out.old ≡ None }
    ensures { Puts (W.taken out.old) (W.taken out.new) (W.fault out.new) (spaced (call_words call) ++ 10 ∷ []) result }
{
    match call {
        NumberCall::Take(k) => out.put_numbers(b"take", &[k]),
        NumberCall::TakeAny => put_line(out, b"take", &[b"any"]),
        NumberCall::Give(k) => out.put_numbers(b"give", &[k]),
        NumberCall::GiveAny => put_line(out, b"give", &[b"any"]),
        NumberCall::AtLeast(k) => out.put_numbers(b"atleast", &[k]),
        NumberCall::Value => put_line(out, b"value", &[]),
    }
}
