//! The event lines of a history.

ghost use Rattle.std.specs.Prelude.{◌≡◌, map};
ghost use Rattle.history_text.specs.Events.{history_body, line_of, event_line_of, begin_event_of, op_event_of, counted_of, listed_of, busy_of, nothing_of, commit_event_of, abort_event_of, rollback_event_of};

use crate::event_line::EventLine;
use crate::plain::keep_plain;
use line_text::{FaultKind, exactly, is_key, long_number_at, number_at};
use object_trait::Event;
use std::alloc::{AllocError, Global};
use store_text::Entries;

/// The events of a history.
#[derive(Clone, Copy)]
pub struct Events;

impl Entries for Events {
    type Entry = EventLine;

    type Kept = Vec<Event>;

    ghost body = { λ _. history_body };

    ghost said = { λ happened. map line_of happened.items };

    fn has_max(&self) -> bool {
        false
    }

    #[tactic(auto, unfolding(crate::specs::Events::event_line_of))]
    fn entry(&self, words: &[&[u8]]) -> Result<EventLine, FaultKind> {
        if is_key(words, "begin") {
            begin_of(words)
        } else if is_key(words, "op") {
            op_of(words)
        } else if is_key(words, "busy") {
            busy_of(words)
        } else if is_key(words, "none") {
            nothing_of(words)
        } else if is_key(words, "commit") {
            commit_of(words)
        } else if is_key(words, "abort") {
            abort_of(words)
        } else if is_key(words, "rollback") {
            rollback_of(words)
        } else {
            Err(FaultKind::UnknownWord)
        }
    }

    fn nothing(&self, alloc: Global) -> Vec<Event> {
        Vec::new(alloc)
    }

    fn keep(
        &self,
        happened: &mut Vec<Event>,
        _objects: u32,
        entry: EventLine,
    ) -> Result<(), AllocError> {
        // by its parts, since the borrow checker can't follow an event that is passed on whole
        let Event { worker, kind } = entry.event();
        happened.push(Event { worker, kind })?;
        Ok(())
    }

    fn keep_plain<'a>(
        &self,
        happened: &mut Vec<Event>,
        objects: u32,
        text: &'a [u8],
    ) -> Option<&'a [u8]> {
        keep_plain(happened, objects, text)
    }

    fn are_few(&self, happened: &Vec<Event>) {
        happened.as_slice();
    }

    fn is_in_range(&self, objects: u32, entry: EventLine) -> bool {
        entry.is_in_range(objects)
    }

    fn wants_another(&self, _entry: EventLine) -> bool {
        false
    }
}

#[tactic(auto, unfolding(crate::specs::Events::begin_event_of))]
fn begin_of(words: &[&[u8]]) -> Result<EventLine, FaultKind>
    ensures { result ≡ begin_event_of (map (λ w. w.now) words.now) }
{
    exactly(words, 3)?;
    let w = number_at(words, 1)?;
    let t = number_at(words, 2)?;
    Ok(EventLine::Begin { w, t })
}

#[tactic(auto, unfolding(crate::specs::Events::op_event_of))]
fn op_of(words: &[&[u8]]) -> Result<EventLine, FaultKind>
    ensures { result ≡ op_event_of (map (λ w. w.now) words.now) }
{
    if words.len() == 6 {
        counted_of(words)
    } else {
        listed_of(words)
    }
}

#[tactic(auto, unfolding(crate::specs::Events::counted_of))]
fn counted_of(words: &[&[u8]]) -> Result<EventLine, FaultKind>
    ensures { result ≡ counted_of (map (λ w. w.now) words.now) }
{
    exactly(words, 6)?;
    let w = number_at(words, 1)?;
    let t = number_at(words, 2)?;
    let x = number_at(words, 3)?;
    let k = number_at(words, 4)?;
    let n = long_number_at(words, 5)?;
    Ok(EventLine::OpOf { w, t, x, k, n })
}

#[tactic(auto, unfolding(crate::specs::Events::listed_of))]
fn listed_of(words: &[&[u8]]) -> Result<EventLine, FaultKind>
    ensures { result ≡ listed_of (map (λ w. w.now) words.now) }
{
    exactly(words, 5)?;
    let w = number_at(words, 1)?;
    let t = number_at(words, 2)?;
    let x = number_at(words, 3)?;
    let k = number_at(words, 4)?;
    Ok(EventLine::Op { w, t, x, k })
}

#[tactic(auto, unfolding(crate::specs::Events::busy_of))]
fn busy_of(words: &[&[u8]]) -> Result<EventLine, FaultKind>
    ensures { result ≡ busy_of (map (λ w. w.now) words.now) }
{
    exactly(words, 6)?;
    let w = number_at(words, 1)?;
    let t = number_at(words, 2)?;
    let x = number_at(words, 3)?;
    let c = number_at(words, 4)?;
    let u = number_at(words, 5)?;
    Ok(EventLine::Busy { w, t, x, c, u })
}

#[tactic(auto, unfolding(crate::specs::Events::nothing_of))]
fn nothing_of(words: &[&[u8]]) -> Result<EventLine, FaultKind>
    ensures { result ≡ nothing_of (map (λ w. w.now) words.now) }
{
    exactly(words, 5)?;
    let w = number_at(words, 1)?;
    let t = number_at(words, 2)?;
    let x = number_at(words, 3)?;
    let c = number_at(words, 4)?;
    Ok(EventLine::Nothing { w, t, x, c })
}

#[tactic(auto, unfolding(crate::specs::Events::commit_event_of))]
fn commit_of(words: &[&[u8]]) -> Result<EventLine, FaultKind>
    ensures { result ≡ commit_event_of (map (λ w. w.now) words.now) }
{
    exactly(words, 3)?;
    let w = number_at(words, 1)?;
    let t = number_at(words, 2)?;
    Ok(EventLine::Commit { w, t })
}

#[tactic(auto, unfolding(crate::specs::Events::abort_event_of))]
fn abort_of(words: &[&[u8]]) -> Result<EventLine, FaultKind>
    ensures { result ≡ abort_event_of (map (λ w. w.now) words.now) }
{
    exactly(words, 3)?;
    let w = number_at(words, 1)?;
    let t = number_at(words, 2)?;
    Ok(EventLine::Abort { w, t })
}

#[tactic(auto, unfolding(crate::specs::Events::rollback_event_of))]
fn rollback_of(words: &[&[u8]]) -> Result<EventLine, FaultKind>
    ensures { result ≡ rollback_event_of (map (λ w. w.now) words.now) }
{
    exactly(words, 4)?;
    let w = number_at(words, 1)?;
    let t = number_at(words, 2)?;
    let n = number_at(words, 3)?;
    Ok(EventLine::Rollback { w, t, n })
}
