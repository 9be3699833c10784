//! The loops that write whole pieces, and lines of words.

ghost use Rattle.std.specs.Prelude.{◌≡◌, ◌++◌, ◌∷◌, [], None, map};
ghost use Rattle.std.specs.List.{flat_map, join_with_byte};
ghost use Rattle.outputs.specs.Out.{Puts};

use crate::out::{Out, OutFault};

/// Writes a whole piece. After an error the output took a beginning of the piece, and its fault is
/// that error. An empty piece is written with no call of the writer.
pub fn put<W: Out>(out: &mut W, piece: &[u8]) -> Result<(), OutFault>
    requires { W.fault out.old ≡ None }
    ensures { Puts (W.taken out.old) (W.taken out.new) (W.fault out.new) piece.now result }
{
    out.put_piece(piece)
}

/// Writes several pieces as one text, as `put` writes one.
pub fn put_all<W: Out>(out: &mut W, pieces: &[&[u8]]) -> Result<(), OutFault>
    requires { W.fault out.old ≡ None }
    ensures { Puts (W.taken out.old) (W.taken out.new) (W.fault out.new)
        (flat_map (λ piece. piece.now) pieces.now) result }
{
    for piece in pieces {
        put(out, piece)?;
    }
    Ok(())
}

/// Writes a line: a keyword and the words after it, with one space between two, and a LF.
pub fn put_line<W: Out>(out: &mut W, keyword: &[u8], words: &[&[u8]]) -> Result<(), OutFault>
    requires { W.fault out.old ≡ None }
    ensures { Puts (W.taken out.old) (W.taken out.new) (W.fault out.new)
        (join_with_byte 32 (keyword.now ∷ map (λ w. w.now) words.now) ++ 10 ∷ []) result }
{
    put(out, keyword)?;
    put_behind(out, words)?;
    put(out, b"\n")
}

/// Writes words with a space before each.
fn put_behind<W: Out>(out: &mut W, words: &[&[u8]]) -> Result<(), OutFault>
    requires { W.fault out.old ≡ None }
    ensures { Puts (W.taken out.old) (W.taken out.new) (W.fault out.new) (flat_map (λ w. 32 ∷ w.now) words.now) result }
{
    for word in words {
        put_word(out, word)?;
    }
    Ok(())
}

/// Writes a space and a word.
fn put_word<W: Out>(out: &mut W, word: &[u8]) -> Result<(), OutFault>
    requires { W.fault out.old ≡ None }
    ensures { Puts (W.taken out.old) (W.taken out.new) (W.fault out.new) (32 ∷ word.now) result }
{
    put(out, b" ")?;
    put(out, word)
}
