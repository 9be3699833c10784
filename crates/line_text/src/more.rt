//! Plain lines that go on with the section of the line before.

ghost use Rattle.std.specs.Prelude.{◌≡◌, ◌<◌, Some, true, length};
ghost use Rattle.line_text.specs.Plain.{TakesMore, plain_place};
ghost use Rattle.line_text.specs.Steps.{IsKnown, ReadsLines};

use crate::grammar::Grammar;
use crate::judge::{ascends, is_full, is_late, lacks};
use crate::read_so_far::{Place, ReadSoFar, has_ended};

/// Keeps the items of a text's first lines, as far as these are plain lines of the last item's section that pass
/// their tests, and gives what comes after them and how many they are. Items that ascend are left.
#[inline(always)]
pub fn keep_plain_lines<'a, G: Grammar>(
    grammar: &G,
    text: &'a [u8],
    so_far: &mut ReadSoFar<G::Kept>,
) -> (&'a [u8], usize)
    requires { IsKnown (G.rules grammar.now) (G.kept so_far.old.kept) so_far.old.counts.items so_far.old.last so_far.old.clear }
    ensures read { ReadsLines (G.rules grammar.now) text.now result.0.now result.1 (G.kept so_far.old.kept) (G.kept so_far.new.kept) }
    ensures known { IsKnown (G.rules grammar.now) (G.kept so_far.new.kept) so_far.new.counts.items so_far.new.last so_far.new.clear }
{
    match so_far.last {
        Some(last) => keep_lines_behind(grammar, text, last, so_far),
        None => (text, 0),
    }
}

/// The same behind the item at this place, which is the last.
#[inline(always)]
fn keep_lines_behind<'a, G: Grammar>(
    grammar: &G,
    text: &'a [u8],
    last: Place,
    so_far: &mut ReadSoFar<G::Kept>,
) -> (&'a [u8], usize)
    requires known { IsKnown (G.rules grammar.now) (G.kept so_far.old.kept) so_far.old.counts.items so_far.old.last so_far.old.clear }
    requires last { so_far.old.last ≡ Some last }
    ensures read { ReadsLines (G.rules grammar.now) text.now result.0.now result.1 (G.kept so_far.old.kept) (G.kept so_far.new.kept) }
    ensures known { IsKnown (G.rules grammar.now) (G.kept so_far.new.kept) so_far.new.counts.items so_far.new.last so_far.new.clear }
{
    let Place { rank, key: None } = last else {
        return (text, 0);
    };
    if !takes_more(grammar, so_far, last) {
        return (text, 0);
    }
    keep_each(grammar, text, rank, so_far)
}

/// The same of a section that takes more, behind its last item, which ascends by nothing.
#[inline(always)]
fn keep_each<'a, G: Grammar>(
    grammar: &G,
    text: &'a [u8],
    rank: usize,
    so_far: &mut ReadSoFar<G::Kept>,
) -> (&'a [u8], usize)
    requires known { IsKnown (G.rules grammar.now) (G.kept so_far.old.kept) so_far.old.counts.items so_far.old.last so_far.old.clear }
    requires last { so_far.old.last ≡ Some (plain_place rank) }
    requires ranked { rank < length (G.rules grammar.now).sections }
    requires takes { TakesMore (G.rules grammar.now) (G.kept so_far.old.kept) rank }
    ensures read { ReadsLines (G.rules grammar.now) text.now result.0.now result.1 (G.kept so_far.old.kept) (G.kept so_far.new.kept) }
    ensures known { IsKnown (G.rules grammar.now) (G.kept so_far.new.kept) so_far.new.counts.items so_far.new.last so_far.new.clear }
{
    let mut rest = text;
    let mut count = 0;
    while !is_full(grammar, so_far, rank) {
        match grammar.keep_plain(&mut so_far.kept, rank, rest) {
            Some(behind) => rest = behind,
            None => return (rest, count),
        }
        so_far.counts[rank] += 1;
        count += 1;
    }
    (rest, count)
}

fn plain_place(rank: usize) -> Place
    ensures { result ≡ plain_place rank }
{
    Place { rank, key: None }
}

/// Whether the last item's section may go on with an item that ascends by nothing.
fn takes_more<G: Grammar>(grammar: &G, so_far: &ReadSoFar<G::Kept>, last: Place) -> bool
    requires known { IsKnown (G.rules grammar.now) (G.kept so_far.now.kept) so_far.now.counts.items so_far.now.last so_far.now.clear }
    requires last { so_far.now.last ≡ Some last }
    ensures takes { result ≡ true → TakesMore (G.rules grammar.now) (G.kept so_far.now.kept) last.rank }
    ensures ranked { result ≡ true → last.rank < length (G.rules grammar.now).sections }
{
    let place = plain_place(last.rank);
    if last.rank >= grammar.sections().len() {
        return false;
    }
    if has_ended(grammar, so_far) {
        return false;
    }
    if is_late(grammar, so_far, place) {
        return false;
    }
    if lacks(grammar, so_far, last.rank) {
        return false;
    }
    if is_full(grammar, so_far, last.rank) {
        return false;
    }
    ascends(grammar, so_far, place)
}
