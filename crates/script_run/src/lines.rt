//! The lines of a running script that are no lines of its history.

ghost use Rattle.std.specs.Prelude.{◌≡◌, ◌++◌, ◌∷◌, [], None};
ghost use Rattle.line_text.specs.Spelling.{spaced};
ghost use Rattle.outputs.specs.Out.{Puts};
ghost use Rattle.script_run.specs.Lines.{refusal_number, refusal_name, refused_words, kept_words};

use itoa::Buffer;
use outputs::{Out, OutFault, put_line};
use serial_order::Refusal;

/// Writes the line of a refusal, `# refused N Kind`.
///
/// # Errors
///
/// The fault that stopped the output, which then took a beginning of the line.
pub(crate) fn write_refused<W: Out>(out: &mut W, refusal: Refusal) -> Result<(), OutFault>
    requires { W.fault out.old ≡ None }
    ensures { Puts (W.taken out.old) (W.taken out.new) (W.fault out.new) (spaced (refused_words refusal) ++ 10 ∷ []) result }
{
    let mut number = Buffer::new();
    put_line(
        out,
        b"#",
        &[
            b"refused",
            number.format(number_of(refusal)).as_bytes(),
            name_of(refusal).as_bytes(),
        ],
    )
}

/// Writes the line of the kept state of object x, `# kept X S`.
///
/// # Errors
///
/// The fault that stopped the output, which then took a beginning of the line.
pub(crate) fn write_kept<W: Out>(out: &mut W, x: u32, state: u32) -> Result<(), OutFault>
    requires { W.fault out.old ≡ None }
    ensures { Puts (W.taken out.old) (W.taken out.new) (W.fault out.new) (spaced (kept_words x state) ++ 10 ∷ []) result }
{
    let (mut place, mut number) = (Buffer::new(), Buffer::new());
    put_line(
        out,
        b"#",
        &[
            b"kept",
            place.format(x).as_bytes(),
            number.format(state).as_bytes(),
        ],
    )
}

/// The number of a refusal.
pub fn number_of(refusal: Refusal) -> u8
    ensures { result ≡ refusal_number refusal }
{
    match refusal {
        Refusal::NotOpen => 1,
        Refusal::NoObject => 2,
        Refusal::NoCall => 3,
        Refusal::TooManyOpen => 4,
        Refusal::HistoryFull => 5,
        Refusal::NoMemory => 6,
        Refusal::BadRollback => 7,
    }
}

/// The name of a refusal.
pub fn name_of(refusal: Refusal) -> &'static str
    ensures { result.now ≡ refusal_name refusal }
{
    match refusal {
        Refusal::NotOpen => "NotOpen",
        Refusal::NoObject => "NoObject",
        Refusal::NoCall => "NoCall",
        Refusal::TooManyOpen => "TooManyOpen",
        Refusal::HistoryFull => "HistoryFull",
        Refusal::NoMemory => "NoMemory",
        Refusal::BadRollback => "BadRollback",
    }
}
