ghost use Rattle.std.specs.Prelude.{◌≡◌, ◌<◌, length, IfOk, OnOk, MatchResult};
ghost use Rattle.line_text.specs.Steps.{IsKnown, Reads, ReadsLines, IsStopped};
ghost use Rattle.line_text.specs.Outcome.{Gives};
ghost use Rattle.line_text.specs.Accepted.{IsAccepted};

use crate::cut::cut_line;
use crate::fault::{FaultKind, TextFault};
use crate::grammar::Grammar;
use crate::judge::judge_words;
use crate::more::keep_plain_lines;
use crate::read_so_far::{ReadSoFar, has_ended, nothing_read};
use std::alloc::Global;

/// The items of a text as its grammar keeps them, or its first fault.
///
/// `NoMemory` comes in place of either where memory was refused; its line is the one that was being
/// read.
pub fn read_items<G: Grammar>(alloc: Global, grammar: &G, text: &[u8]) -> Result<G::Kept, TextFault>
    ensures exact { Gives G.kept result (G.rules grammar.now) text.now }
    ensures accepted { IfOk result (λ kept. IsAccepted (G.rules grammar.now) (G.kept kept)) }
{
    let Ok(mut so_far) = nothing_read(alloc, grammar) else {
        return Err(TextFault {
            line: 1,
            kind: FaultKind::NoMemory,
        });
    };
    let mut words = Vec::new(alloc);
    let mut rest = text;
    let mut line = 1;
    while !rest.is_empty() {
        match read_lines(grammar, rest, &mut words, &mut so_far) {
            Ok((behind, count)) => {
                rest = behind;
                line += count;
            }
            Err(kind) => return Err(TextFault { line, kind }),
        }
    }
    if !has_ended(grammar, &so_far) {
        return Err(TextFault {
            line,
            kind: FaultKind::Missing,
        });
    }
    let ReadSoFar {
        kept,
        counts: _,
        last: _,
        clear: _,
    } = so_far;
    Ok(kept)
}

/// The eleven tests of a text's first lines, of several where they are plain, and what comes after these, and how many
/// they are. The items of lines that pass and have one are then after the others.
#[inline(always)]
#[tactic(auto, unfolding(crate::specs::LineTests::line_fault))]
fn read_lines<'a, G: Grammar>(
    grammar: &G,
    text: &'a [u8],
    words: &mut Vec<&'a [u8]>,
    so_far: &mut ReadSoFar<G::Kept>,
) -> Result<(&'a [u8], usize), FaultKind>
    requires some { 0 < length text.now }
    requires known { IsKnown (G.rules grammar.now) (G.kept so_far.old.kept) so_far.old.counts.items so_far.old.last so_far.old.clear }
    ensures read { MatchResult result
        (λ some. ReadsLines (G.rules grammar.now) text.now some.0.now some.1 (G.kept so_far.old.kept) (G.kept so_far.new.kept))
        (λ kind. IsStopped (G.rules grammar.now) text.now (G.kept so_far.old.kept) kind) }
    ensures some { IfOk result (λ some. 0 < some.1) }
    ensures known { OnOk result
        (IsKnown (G.rules grammar.now) (G.kept so_far.new.kept) so_far.new.counts.items so_far.new.last so_far.new.clear) }
{
    let (behind, count) = keep_plain_lines(grammar, text, so_far);
    if count > 0 {
        return Ok((behind, count));
    }
    let behind = read_line(grammar, text, words, so_far)?;
    Ok((behind, 1))
}

/// The eleven tests of a text's first line, and what comes after it. The line's item, if it passes and has
/// one, is then after the others.
#[inline(never)]
#[tactic(auto, unfolding(crate::specs::LineTests::line_fault))]
fn read_line<'a, G: Grammar>(
    grammar: &G,
    text: &'a [u8],
    words: &mut Vec<&'a [u8]>,
    so_far: &mut ReadSoFar<G::Kept>,
) -> Result<&'a [u8], FaultKind>
    requires some { 0 < length text.now }
    requires known { IsKnown (G.rules grammar.now) (G.kept so_far.old.kept) so_far.old.counts.items so_far.old.last so_far.old.clear }
    ensures read { MatchResult result
        (λ behind. Reads (G.rules grammar.now) text.now behind.now (G.kept so_far.old.kept) (G.kept so_far.new.kept))
        (λ kind. IsStopped (G.rules grammar.now) text.now (G.kept so_far.old.kept) kind) }
    ensures known { OnOk result
        (IsKnown (G.rules grammar.now) (G.kept so_far.new.kept) so_far.new.counts.items so_far.new.last so_far.new.clear) }
{
    let behind = cut_line(text, words)?;
    judge_words(grammar, words, so_far)?;
    Ok(behind)
}
