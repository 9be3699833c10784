//! The event lines as they are usually written, with one space between two words and none elsewhere.

ghost use Rattle.std.specs.Prelude.{◌≡◌, ◌+◌, ◌<◌, ◌≤◌, [], ◌∷◌, ◌++◌, true, length, map, vec_len, vec_capacity, MatchOption, codes};
ghost use Rattle.store_text.specs.PlainEntry.{KeepsEntry};
ghost use Rattle.history_text.specs.Events.{history_body, line_of, is_in_range};

use crate::event_line::EventLine;
use line_text::number_before;
use object_trait::Event;

/// Keeps the event of a text's first line, where that is a plain one whose numbers are in range in a text that
/// may have so many objects, and there is room for it, and gives what comes after it.
#[inline(always)]
pub fn keep_plain<'a>(kept: &mut Vec<Event>, objects: u32, text: &'a [u8]) -> Option<&'a [u8]>
    ensures items { MatchOption result
        (kept.new.items ≡ kept.old.items)
        (λ behind. KeepsEntry history_body objects text.now behind.now (map line_of kept.old.items) (map line_of kept.new.items)) }
    ensures few { length kept.new.items ≤ length kept.old.items + 1 }
{
    if kept.len() == kept.capacity() {
        return None;
    }
    match text {
        [b'o', b'p', b' ', rest @ ..] => keep_op(kept, objects, rest),
        [b'b', b'e', b'g', b'i', b'n', b' ', rest @ ..] => keep_begin(kept, objects, rest),
        [b'c', b'o', b'm', b'm', b'i', b't', b' ', rest @ ..] => keep_commit(kept, objects, rest),
        _ => keep_rarer(kept, objects, text),
    }
}

/// The same of the lines that a history has fewer of.
#[inline(always)]
fn keep_rarer<'a>(kept: &mut Vec<Event>, objects: u32, text: &'a [u8]) -> Option<&'a [u8]>
    requires { vec_len kept.old < vec_capacity kept.old }
    ensures items { MatchOption result
        (kept.new.items ≡ kept.old.items)
        (λ behind. KeepsEntry history_body objects text.now behind.now (map line_of kept.old.items) (map line_of kept.new.items)) }
    ensures few { length kept.new.items ≤ length kept.old.items + 1 }
{
    match text {
        [b'b', b'u', b's', b'y', b' ', rest @ ..] => keep_busy(kept, objects, rest),
        [b'n', b'o', b'n', b'e', b' ', rest @ ..] => keep_nothing(kept, objects, rest),
        [b'a', b'b', b'o', b'r', b't', b' ', rest @ ..] => keep_abort(kept, objects, rest),
        [
            b'r',
            b'o',
            b'l',
            b'l',
            b'b',
            b'a',
            b'c',
            b'k',
            b' ',
            rest @ ..,
        ] => keep_rollback(kept, objects, rest),
        _ => None,
    }
}

/// Puts the event of a line whose numbers are in range after the others.
#[inline(always)]
fn keep(kept: &mut Vec<Event>, objects: u32, line: EventLine) -> Option<()>
    requires { vec_len kept.old < vec_capacity kept.old }
    ensures items { MatchOption result
        (kept.new.items ≡ kept.old.items)
        (λ _. (is_in_range objects line ≡ true) × (map line_of kept.new.items ≡ map line_of kept.old.items ++ line ∷ [])) }
    ensures few { length kept.new.items ≤ length kept.old.items + 1 }
{
    if !line.is_in_range(objects) {
        return None;
    }
    // by its parts, since the borrow checker can't follow an event that is passed on whole
    let Event { worker, kind } = line.event();
    kept.push_reserved(Event { worker, kind });
    Some(())
}

#[inline(always)]
fn keep_begin<'a>(kept: &mut Vec<Event>, objects: u32, rest: &'a [u8]) -> Option<&'a [u8]>
    requires { vec_len kept.old < vec_capacity kept.old }
    ensures items { MatchOption result
        (kept.new.items ≡ kept.old.items)
        (λ behind. KeepsEntry history_body objects (codes "begin " ++ rest.now) behind.now (map line_of kept.old.items) (map line_of kept.new.items)) }
    ensures few { length kept.new.items ≤ length kept.old.items + 1 }
{
    let (w, rest) = number_before(rest, b' ')?;
    let (t, behind) = number_before(rest, b'\n')?;
    keep(kept, objects, EventLine::Begin { w, t })?;
    Some(behind)
}

/// Keeps an operation without an amount: a line with one is left to the reader of any line.
#[inline(always)]
fn keep_op<'a>(kept: &mut Vec<Event>, objects: u32, rest: &'a [u8]) -> Option<&'a [u8]>
    requires { vec_len kept.old < vec_capacity kept.old }
    ensures items { MatchOption result
        (kept.new.items ≡ kept.old.items)
        (λ behind. KeepsEntry history_body objects (codes "op " ++ rest.now) behind.now (map line_of kept.old.items) (map line_of kept.new.items)) }
    ensures few { length kept.new.items ≤ length kept.old.items + 1 }
{
    let (w, rest) = number_before(rest, b' ')?;
    let (t, rest) = number_before(rest, b' ')?;
    let (x, rest) = number_before(rest, b' ')?;
    let (k, behind) = number_before(rest, b'\n')?;
    keep(kept, objects, EventLine::Op { w, t, x, k })?;
    Some(behind)
}

#[inline(always)]
fn keep_busy<'a>(kept: &mut Vec<Event>, objects: u32, rest: &'a [u8]) -> Option<&'a [u8]>
    requires { vec_len kept.old < vec_capacity kept.old }
    ensures items { MatchOption result
        (kept.new.items ≡ kept.old.items)
        (λ behind. KeepsEntry history_body objects (codes "busy " ++ rest.now) behind.now (map line_of kept.old.items) (map line_of kept.new.items)) }
    ensures few { length kept.new.items ≤ length kept.old.items + 1 }
{
    let (w, rest) = number_before(rest, b' ')?;
    let (t, rest) = number_before(rest, b' ')?;
    let (x, rest) = number_before(rest, b' ')?;
    let (c, rest) = number_before(rest, b' ')?;
    let (u, behind) = number_before(rest, b'\n')?;
    keep(kept, objects, EventLine::Busy { w, t, x, c, u })?;
    Some(behind)
}

#[inline(always)]
fn keep_nothing<'a>(kept: &mut Vec<Event>, objects: u32, rest: &'a [u8]) -> Option<&'a [u8]>
    requires { vec_len kept.old < vec_capacity kept.old }
    ensures items { MatchOption result
        (kept.new.items ≡ kept.old.items)
        (λ behind. KeepsEntry history_body objects (codes "none " ++ rest.now) behind.now (map line_of kept.old.items) (map line_of kept.new.items)) }
    ensures few { length kept.new.items ≤ length kept.old.items + 1 }
{
    let (w, rest) = number_before(rest, b' ')?;
    let (t, rest) = number_before(rest, b' ')?;
    let (x, rest) = number_before(rest, b' ')?;
    let (c, behind) = number_before(rest, b'\n')?;
    keep(kept, objects, EventLine::Nothing { w, t, x, c })?;
    Some(behind)
}

#[inline(always)]
fn keep_commit<'a>(kept: &mut Vec<Event>, objects: u32, rest: &'a [u8]) -> Option<&'a [u8]>
    requires { vec_len kept.old < vec_capacity kept.old }
    ensures items { MatchOption result
        (kept.new.items ≡ kept.old.items)
        (λ behind. KeepsEntry history_body objects (codes "commit " ++ rest.now) behind.now (map line_of kept.old.items) (map line_of kept.new.items)) }
    ensures few { length kept.new.items ≤ length kept.old.items + 1 }
{
    let (w, rest) = number_before(rest, b' ')?;
    let (t, behind) = number_before(rest, b'\n')?;
    keep(kept, objects, EventLine::Commit { w, t })?;
    Some(behind)
}

#[inline(always)]
fn keep_abort<'a>(kept: &mut Vec<Event>, objects: u32, rest: &'a [u8]) -> Option<&'a [u8]>
    requires { vec_len kept.old < vec_capacity kept.old }
    ensures items { MatchOption result
        (kept.new.items ≡ kept.old.items)
        (λ behind. KeepsEntry history_body objects (codes "abort " ++ rest.now) behind.now (map line_of kept.old.items) (map line_of kept.new.items)) }
    ensures few { length kept.new.items ≤ length kept.old.items + 1 }
{
    let (w, rest) = number_before(rest, b' ')?;
    let (t, behind) = number_before(rest, b'\n')?;
    keep(kept, objects, EventLine::Abort { w, t })?;
    Some(behind)
}

#[inline(always)]
fn keep_rollback<'a>(kept: &mut Vec<Event>, objects: u32, rest: &'a [u8]) -> Option<&'a [u8]>
    requires { vec_len kept.old < vec_capacity kept.old }
    ensures items { MatchOption result
        (kept.new.items ≡ kept.old.items)
        (λ behind. KeepsEntry history_body objects (codes "rollback " ++ rest.now) behind.now (map line_of kept.old.items) (map line_of kept.new.items)) }
    ensures few { length kept.new.items ≤ length kept.old.items + 1 }
{
    let (w, rest) = number_before(rest, b' ')?;
    let (t, rest) = number_before(rest, b' ')?;
    let (n, behind) = number_before(rest, b'\n')?;
    keep(kept, objects, EventLine::Rollback { w, t, n })?;
    Some(behind)
}
