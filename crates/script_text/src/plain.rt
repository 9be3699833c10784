//! The command lines as they are usually written, with one space between two words and none elsewhere.
//!
//! Each is kept where it is read, since a command that is handed on is copied on the way.

ghost use Rattle.std.specs.Prelude.{◌≡◌, ◌∷◌, ◌++◌, MatchOption, codes};
ghost use Rattle.script_text.specs.Kept.{PutsCall};
ghost use Rattle.script_text.specs.Plain.{KeepsCommandOf};

use crate::command_list::CommandList;
use crate::kept_command::KeptCommand;
use line_text::{bytes_before, names_are_words, number_before};

/// Keeps the command of a text's first line, where that is a plain one and there is room for it, and gives
/// what comes after it.
#[inline(always)]
pub fn keep_plain<'a>(kept: &mut CommandList, text: &'a [u8]) -> Option<&'a [u8]>
    ensures { MatchOption result
        (kept.new ≡ kept.old)
        (λ behind. KeepsCommandOf text.now behind.now kept.old kept.new) }
{
    match text {
        [b'c', b'a', b'l', b'l', b' ', rest @ ..] => keep_call(kept, rest),
        [b'b', b'e', b'g', b'i', b'n', b'\n', behind @ ..] => keep_begin(kept, behind),
        [b'c', b'o', b'm', b'm', b'i', b't', b' ', rest @ ..] => keep_commit(kept, rest),
        _ => keep_rarer(kept, text),
    }
}

/// The same of the commands that a script has fewer of.
#[inline]
fn keep_rarer<'a>(kept: &mut CommandList, text: &'a [u8]) -> Option<&'a [u8]>
    ensures { MatchOption result
        (kept.new ≡ kept.old)
        (λ behind. KeepsCommandOf text.now behind.now kept.old kept.new) }
{
    match text {
        [b'a', b'b', b'o', b'r', b't', b' ', rest @ ..] => keep_abort(kept, rest),
        [
            b'r',
            b'o',
            b'l',
            b'l',
            b'b',
            b'a',
            b'c',
            b'k',
            b' ',
            rest @ ..,
        ] => keep_rollback(kept, rest),
        _ => None,
    }
}

#[inline(always)]
fn keep_begin<'a>(kept: &mut CommandList, behind: &'a [u8]) -> Option<&'a [u8]>
    ensures { MatchOption result
        (kept.new ≡ kept.old)
        (λ left. KeepsCommandOf (codes "begin" ++ 10 ∷ behind.now) left.now kept.old kept.new) }
{
    kept.put_nameless(KeptCommand::Begin)?;
    Some(behind)
}

#[inline(always)]
fn keep_call<'a>(kept: &mut CommandList, rest: &'a [u8]) -> Option<&'a [u8]>
    ensures { MatchOption result
        (kept.new ≡ kept.old)
        (λ behind. KeepsCommandOf (codes "call " ++ rest.now) behind.now kept.old kept.new) }
{
    let (t, rest) = number_before(rest, b' ')?;
    let (x, rest) = number_before(rest, b' ')?;
    names_are_words();
    if let Some(behind) = kept.put_known_call(t, x, rest) {
        return Some(behind);
    }
    let behind = keep_new_call(kept, t, x, rest)?;
    Some(behind)
}

/// The same of t's call at object x by the name before the LF, where that name isn't found at once.
#[inline(never)]
fn keep_new_call<'a>(kept: &mut CommandList, t: u32, x: u32, rest: &'a [u8]) -> Option<&'a [u8]>
    ensures { MatchOption result (kept.new ≡ kept.old) (λ behind. PutsCall t x rest.now behind.now kept.old kept.new) }
{
    let (word, behind) = bytes_before(rest, b'\n')?;
    kept.put_call(t, x, word)?;
    kept.note(rest, word);
    Some(behind)
}

#[inline(always)]
fn keep_commit<'a>(kept: &mut CommandList, rest: &'a [u8]) -> Option<&'a [u8]>
    ensures { MatchOption result
        (kept.new ≡ kept.old)
        (λ behind. KeepsCommandOf (codes "commit " ++ rest.now) behind.now kept.old kept.new) }
{
    let (t, behind) = number_before(rest, b'\n')?;
    kept.put_nameless(KeptCommand::Commit { t })?;
    Some(behind)
}

#[inline]
fn keep_abort<'a>(kept: &mut CommandList, rest: &'a [u8]) -> Option<&'a [u8]>
    ensures { MatchOption result
        (kept.new ≡ kept.old)
        (λ behind. KeepsCommandOf (codes "abort " ++ rest.now) behind.now kept.old kept.new) }
{
    let (t, behind) = number_before(rest, b'\n')?;
    kept.put_nameless(KeptCommand::Abort { t })?;
    Some(behind)
}

#[inline]
fn keep_rollback<'a>(kept: &mut CommandList, rest: &'a [u8]) -> Option<&'a [u8]>
    ensures { MatchOption result
        (kept.new ≡ kept.old)
        (λ behind. KeepsCommandOf (codes "rollback " ++ rest.now) behind.now kept.old kept.new) }
{
    let (t, rest) = number_before(rest, b' ')?;
    let (n, behind) = number_before(rest, b'\n')?;
    kept.put_nameless(KeptCommand::Rollback { t, n })?;
    Some(behind)
}
