//! Events as lines.

ghost use Rattle.std.specs.Prelude.{◌≡◌, ◌<◌, ◌≤◌, ◌^◌, ◌++◌, ◌∷◌, length, OnErr, OnOk};
ghost use Rattle.std.specs.List.{AllByRecursion};
ghost use Rattle.event_text.specs.EventText.{AreShort, IsShort, amount_numbers, line_in_row, event_lines, event_word, numerals_line};
ghost use Rattle.event_text.specs.declared.event_word.EventWord.TheVariants.{Op};
ghost use Rattle.type_table.specs.Operation.{amount_of, place_of};

use crate::event_word::EventWord;
use object_trait::EventKind;
use outputs::{LONGEST, spell_line};
use std::alloc::AllocError;
use type_table::Operation;

/// Puts the lines of events behind a text.
///
/// # Errors
///
/// Memory was refused: the text has a beginning of the lines then.
pub fn push_events(text: &mut Vec<u8>, events: &[EventKind]) -> Result<(), AllocError>
    ensures lines { OnOk result (text.new.items ≡ text.old.items ++ event_lines events.now) }
    ensures short { OnOk result (AreShort events.now) }
{
    for event in events {
        push_event(text, *event)?;
    }
    Ok(())
}

/// Puts the line of an event behind a text.
///
/// # Errors
///
/// Memory was refused: the text is as it was.
pub fn push_event(text: &mut Vec<u8>, event: EventKind) -> Result<(), AllocError>
    ensures line { OnOk result (text.new.items ≡ text.old.items ++ line_in_row event) }
    ensures refused { OnErr result (text.new.items ≡ text.old.items) }
    ensures short { IsShort event }
{
    match event {
        EventKind::Begin { t } => push_line(text, EventWord::Begin, &[0, t]),
        EventKind::Op { t, x, k } => push_operation(text, t, x, k),
        EventKind::Busy { t, x, c, u } => {
            push_line(text, EventWord::Busy, &[0, t, x, u32::from(c), u])
        }
        EventKind::None { t, x, c } => push_line(text, EventWord::None, &[0, t, x, u32::from(c)]),
        EventKind::Commit { t } => push_line(text, EventWord::Commit, &[0, t]),
        EventKind::Abort { t } => push_line(text, EventWord::Abort, &[0, t]),
        EventKind::Rollback { t, n } => push_line(text, EventWord::Rollback, &[0, t, n]),
    }
}

/// Puts the line of an operation behind a text.
fn push_operation(text: &mut Vec<u8>, t: u32, x: u32, k: Operation) -> Result<(), AllocError>
    ensures refused { OnErr result (text.new.items ≡ text.old.items) }
    ensures line { OnOk result (text.new.items ≡ text.old.items ++ numerals_line (event_word Op) (0 ∷ t ∷ x ∷ place_of k ∷ amount_numbers (amount_of k))) }
    ensures short { AllByRecursion (λ n. n < 2 ^ 32) (t ∷ x ∷ place_of k ∷ amount_numbers (amount_of k)) }
{
    let place = u32::from(k.place());
    match k.amount() {
        Some(n) => push_line(text, EventWord::Op, &[0, t, x, place, n]),
        None => push_line(text, EventWord::Op, &[0, t, x, place]),
    }
}

/// Puts a line of a kind's word and numbers behind a text.
fn push_line(text: &mut Vec<u8>, word: EventWord, numbers: &[u32]) -> Result<(), AllocError>
    requires few { length numbers.now ≤ 5 }
    ensures refused { OnErr result (text.new.items ≡ text.old.items) }
    ensures line { OnOk result (text.new.items ≡ text.old.items ++ numerals_line (event_word word) numbers.now) }
{
    let mut line = [0; LONGEST];
    let end = spell_line(&mut line, 0, word.text().as_bytes(), numbers);
    text.extend_from_slice(&line[..end])
}
