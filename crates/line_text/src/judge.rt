ghost use Rattle.std.specs.Prelude.{◌≡◌, ◌<◌, length, map, slice_get, OnOk};
ghost use Rattle.line_text.specs.Rules.{count_at, last_item};
ghost use Rattle.line_text.specs.LineTests.{is_late, lacks, is_full, ascends, item_fault, keys_ascend};
ghost use Rattle.line_text.specs.Steps.{IsKnown, JudgesWords, place_of};

use crate::fault::FaultKind;
use crate::grammar::Grammar;
use crate::read_so_far::{Place, ReadSoFar, has_ended, push_item};
use crate::section::Section;

/// Tests 4 to 11 of a line with these words. Its item, if it passes and has one, is then after the
/// others.
#[tactic(auto, unfolding(crate::specs::LineTests::words_fault))]
pub fn judge_words<G: Grammar>(
    grammar: &G,
    words: &[&[u8]],
    so_far: &mut ReadSoFar<G::Kept>,
) -> Result<(), FaultKind>
    requires { IsKnown (G.rules grammar.now) (G.kept so_far.old.kept) so_far.old.counts.items so_far.old.last so_far.old.clear }
    ensures judged { JudgesWords (G.rules grammar.now) (map (λ w. w.now) words.now)
        (G.kept so_far.old.kept) result (G.kept so_far.new.kept) }
    ensures known { OnOk result
        (IsKnown (G.rules grammar.now) (G.kept so_far.new.kept) so_far.new.counts.items so_far.new.last so_far.new.clear) }
{
    if words.is_empty() {
        return Ok(());
    }
    if has_ended(grammar, so_far) {
        return Err(FaultKind::AfterEnd);
    }
    let item = grammar.item(words)?;
    let place = place_of(grammar, item);
    if let Some(kind) = item_fault(grammar, so_far, item, place) {
        return Err(kind);
    }
    push_item(grammar, item, place, so_far)?;
    Ok(())
}

fn place_of<G: Grammar>(grammar: &G, item: G::Item) -> Place
    ensures value { result ≡ place_of (G.rules grammar.now) item }
    ensures ranked { result.rank < length (G.rules grammar.now).sections }
{
    Place {
        rank: grammar.rank(item),
        key: grammar.key(item),
    }
}

/// The first of tests 7 to 11 that refuses an item after those before it.
#[tactic(auto, unfolding(crate::specs::LineTests::item_fault))]
fn item_fault<G: Grammar>(
    grammar: &G,
    so_far: &ReadSoFar<G::Kept>,
    item: G::Item,
    place: Place,
) -> Option<FaultKind>
    requires known { IsKnown (G.rules grammar.now) (G.kept so_far.now.kept) so_far.now.counts.items so_far.now.last so_far.now.clear }
    requires place { place ≡ place_of (G.rules grammar.now) item }
    requires ranked { place.rank < length (G.rules grammar.now).sections }
    ensures { result ≡ item_fault (G.rules grammar.now) (G.kept so_far.now.kept) item }
{
    if is_late(grammar, so_far, place) {
        return Some(FaultKind::OutOfOrder);
    }
    if lacks(grammar, so_far, place.rank) || grammar.misses(&so_far.kept, &so_far.counts, item) {
        return Some(FaultKind::Missing);
    }
    if !grammar.is_in_range(&so_far.kept, &so_far.counts, item)
        || is_full(grammar, so_far, place.rank)
    {
        return Some(FaultKind::OutOfRange);
    }
    if !ascends(grammar, so_far, place) {
        return Some(FaultKind::OutOfOrder);
    }
    if grammar.has_twin(&so_far.kept, item) {
        return Some(grammar.twin_fault(item));
    }
    None
}

/// Test 7: a section can't come after the last item.
pub fn is_late<G: Grammar>(grammar: &G, so_far: &ReadSoFar<G::Kept>, place: Place) -> bool
    requires known { IsKnown (G.rules grammar.now) (G.kept so_far.now.kept) so_far.now.counts.items so_far.now.last so_far.now.clear }
    requires ranked { place.rank < length (G.rules grammar.now).sections }
    ensures { let rules = G.rules grammar.now in (x : G.Item) → place ≡ place_of rules x →
        result ≡ is_late rules (last_item (G.kept so_far.now.kept)) x }
{
    match so_far.last {
        Some(last) => {
            let section = section_at(grammar.sections(), place.rank);
            place.rank < last.rank || (place.rank == last.rank && section.is_single)
        }
        None => false,
    }
}

/// Test 8: a section of a lower rank must be there and hasn't come.
pub fn lacks<G: Grammar>(grammar: &G, so_far: &ReadSoFar<G::Kept>, rank: usize) -> bool
    requires known { IsKnown (G.rules grammar.now) (G.kept so_far.now.kept) so_far.now.counts.items so_far.now.last so_far.now.clear }
    requires ranked { rank < length (G.rules grammar.now).sections }
    ensures { result ≡ lacks (G.rules grammar.now) (G.kept so_far.now.kept) rank }
{
    rank > so_far.clear && is_lacking(grammar, so_far, rank)
}

/// The same, where the sections below `clear` are looked at too.
fn is_lacking<G: Grammar>(grammar: &G, so_far: &ReadSoFar<G::Kept>, rank: usize) -> bool
    requires known { IsKnown (G.rules grammar.now) (G.kept so_far.now.kept) so_far.now.counts.items so_far.now.last so_far.now.clear }
    requires ranked { rank < length (G.rules grammar.now).sections }
    ensures { result ≡ lacks (G.rules grammar.now) (G.kept so_far.now.kept) rank }
{
    let sections = grammar.sections();
    let mut is_lacking = false;
    for lower in 0..rank {
        let section = section_at(sections, lower);
        is_lacking = is_lacking || (section.is_needed && so_far.counts[lower] == 0);
    }
    is_lacking
}

/// Test 9: the section takes no more lines.
pub fn is_full<G: Grammar>(grammar: &G, so_far: &ReadSoFar<G::Kept>, rank: usize) -> bool
    requires known { IsKnown (G.rules grammar.now) (G.kept so_far.now.kept) so_far.now.counts.items so_far.now.last so_far.now.clear }
    requires ranked { rank < length (G.rules grammar.now).sections }
    ensures { let rules = G.rules grammar.now in
        result ≡ is_full (slice_get rules.sections rank) (count_at rules (G.kept so_far.now.kept) rank) }
{
    match section_at(grammar.sections(), rank).most {
        Some(most) => most <= so_far.counts[rank],
        None => false,
    }
}

/// Whether test 10 passes: the item is greater than the last one, if both are in one ascending section.
pub fn ascends<G: Grammar>(grammar: &G, so_far: &ReadSoFar<G::Kept>, place: Place) -> bool
    requires { IsKnown (G.rules grammar.now) (G.kept so_far.now.kept) so_far.now.counts.items so_far.now.last so_far.now.clear }
    ensures { let rules = G.rules grammar.now in (x : G.Item) → place ≡ place_of rules x →
        result ≡ ascends rules (last_item (G.kept so_far.now.kept)) x }
{
    match so_far.last {
        Some(last) => place.rank != last.rank || keys_ascend(last.key, place.key),
        None => true,
    }
}

fn keys_ascend(lower: Option<(u32, u32)>, upper: Option<(u32, u32)>) -> bool
    ensures { result ≡ keys_ascend lower upper }
{
    match (lower, upper) {
        (Some(lower), Some(upper)) => lower.0 < upper.0
            || (lower.0 == upper.0 && lower.1 < upper.1),
        _ => true,
    }
}

fn section_at(sections: &[Section], rank: usize) -> Section
    requires { rank < length sections.now }
    ensures { slice_get sections.now rank ≡ Some result }
{
    sections[rank]
}
