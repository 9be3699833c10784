//! Lines of events that are read.

ghost use Rattle.std.specs.Prelude.{◌≡◌, ◌<◌, length, IfOk, IfSome};
ghost use Rattle.event_text.specs.EventText.{AreShort, event_lines};

use crate::event_word::EventWord;
use crate::write::push_events;
use decimals::long_number_of;
use object_trait::EventKind;
use std::alloc::{AllocError, Global};
use type_table::Operation;

/// The events whose lines the text is, where it is some. What was read is written again and compared.
///
/// # Errors
///
/// Memory was refused.
pub fn events_in(alloc: Global, text: &[u8]) -> Result<Option<Vec<EventKind>>, AllocError>
    ensures lines { IfOk result (λ found. IfSome found (λ events. text.now ≡ event_lines events.items)) }
    ensures short { IfOk result (λ found. IfSome found (λ events. AreShort events.items)) }
{
    let Some(events) = parsed(alloc, text)? else {
        return Ok(None);
    };
    let mut again = Vec::with_capacity(alloc, text.len())?;
    push_events(&mut again, &events)?;
    if again.as_slice() != text {
        return Ok(None);
    }
    Ok(Some(events))
}

/// An event for each line, as far as its numbers can be those of one.
fn parsed(alloc: Global, text: &[u8]) -> Result<Option<Vec<EventKind>>, AllocError> {
    let mut events = Vec::new(alloc);
    for line in text.split(|b| *b == b'\n') {
        if line.is_empty() {
            continue;
        }
        match event_in(line) {
            Some(event) => events.push(event)?,
            None => return Ok(None),
        }
    }
    Ok(Some(events))
}

/// The event that a line may say.
fn event_in(line: &[u8]) -> Option<EventKind> {
    let mut words = Words { rest: Some(line) };
    let word = EventWord::of_text(words.next()?)?;
    let _worker = words.number()?;
    let t = words.number()?;
    match word {
        EventWord::Begin => Some(EventKind::Begin { t }),
        EventWord::Commit => Some(EventKind::Commit { t }),
        EventWord::Abort => Some(EventKind::Abort { t }),
        EventWord::Rollback => {
            let n = words.number()?;
            Some(EventKind::Rollback { t, n })
        }
        EventWord::Op | EventWord::Busy | EventWord::None => call_in(word, t, words),
    }
}

/// The event of a call that the rest of its line may say.
fn call_in(word: EventWord, t: u32, words: Words<'_>) -> Option<EventKind> {
    let mut words = words;
    let x = words.number()?;
    let c = u8::try_from(words.number()?).ok()?;
    match (word, words.number()) {
        (EventWord::Op, None) => {
            let k = Operation::listed(c);
            Some(EventKind::Op { t, x, k })
        }
        (EventWord::Op, Some(n)) => {
            let k = Operation::with(c, n);
            Some(EventKind::Op { t, x, k })
        }
        (EventWord::Busy, Some(u)) => Some(EventKind::Busy { t, x, c, u }),
        (EventWord::None, None) => Some(EventKind::None { t, x, c }),
        _ => None,
    }
}

/// The words of a line that are left.
#[derive(Clone, Copy)]
struct Words<'a> {
    rest: Option<&'a [u8]>,
}

impl<'a> Words<'a> {
    /// The next word.
    fn next(&mut self) -> Option<&'a [u8]> {
        let rest = self.rest?;
        match first_space(rest) {
            Some(at) => {
                self.rest = Some(&rest[at + 1..]);
                Some(&rest[..at])
            }
            None => {
                self.rest = None;
                Some(rest)
            }
        }
    }

    /// The next word, where it is a number of 32 bits.
    fn number(&mut self) -> Option<u32> {
        let number = long_number_of(self.next()?)?;
        u32::try_from(number).ok()
    }
}

/// The place of the first space.
fn first_space(line: &[u8]) -> Option<usize>
    ensures within { IfSome result (λ at. at < length line.now) }
{
    line.iter().position(|b| *b == b' ')
}
