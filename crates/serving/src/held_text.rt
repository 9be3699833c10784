//! The lines of transactions that are prepared.

ghost use Rattle.std.specs.Prelude.{◌≡◌, None, ◌++◌};
ghost use Rattle.std.specs.List.{flat_map};
ghost use Rattle.outputs.specs.Out.{Puts};
ghost use Rattle.serving.specs.AnswerText.{done_text, held_text, prepared_words};

use crate::answer_line::HeldTransaction;
use crate::answer_text::{put_done, put_numbers};
use itoa::Buffer;
use journal::Prepared;
use outputs::{Out, OutFault, items_in_turn, put_all, texts_in_turn};

/// Writes the transactions that are prepared, and that these are all.
pub(crate) fn put_held<W: Out>(
    out: &mut W,
    tag: &[u8],
    prepared: &[HeldTransaction],
) -> Result<(), OutFault>
    requires { W.fault out.old ≡ None }
    ensures { Puts (W.taken out.old) (W.taken out.new) (W.fault out.new) (flat_map (held_text tag.now) prepared.now ++ done_text tag.now) result }
{
    texts_in_turn();
    put_held_lines(out, tag, prepared)?;
    put_done(out, tag)
}

/// Writes a line of each.
fn put_held_lines<W: Out>(
    out: &mut W,
    tag: &[u8],
    prepared: &[HeldTransaction],
) -> Result<(), OutFault>
    requires { W.fault out.old ≡ None }
    ensures { Puts (W.taken out.old) (W.taken out.new) (W.fault out.new) (flat_map (held_text tag.now) prepared.now) result }
{
    texts_in_turn();
    items_in_turn::<HeldTransaction>();
    for one in prepared {
        put_one(out, tag, one)?;
    }
    Ok(())
}

/// Writes the line of one.
fn put_one<W: Out>(out: &mut W, tag: &[u8], one: &HeldTransaction) -> Result<(), OutFault>
    requires { W.fault out.old ≡ None }
    ensures { Puts (W.taken out.old) (W.taken out.new) (W.fault out.new) (held_text tag.now one.now) result }
{
    texts_in_turn();
    put_prepared(out, tag, &one.prepared)?;
    put_numbers(out, &one.objects)
}

/// Writes the beginning of the line of one: all but the objects.
fn put_prepared<W: Out>(out: &mut W, tag: &[u8], one: &Prepared) -> Result<(), OutFault>
    requires { W.fault out.old ≡ None }
    ensures { Puts (W.taken out.old) (W.taken out.new) (W.fault out.new) (prepared_words tag.now one.now) result }
{
    let (mut life, mut number, mut until) = (Buffer::new(), Buffer::new(), Buffer::new());
    put_all(
        out,
        &[
            tag,
            b" ",
            one.key.as_bytes(),
            b" ",
            life.format(one.given.life).as_bytes(),
            b".",
            number.format(one.given.number).as_bytes(),
            b" ",
            until.format(one.until).as_bytes(),
        ],
    )
}
