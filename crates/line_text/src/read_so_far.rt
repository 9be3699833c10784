ghost use Rattle.std.specs.Prelude.{◌≡◌, [], ◌∷◌, ◌++◌, ◌<◌, length, IfOk, OnOk, None};
ghost use Rattle.line_text.specs.Rules.{was_read, end_rank};
ghost use Rattle.line_text.specs.LineTests.{item_fault};
ghost use Rattle.line_text.specs.Steps.{IsKnown, place_of};

use crate::grammar::Grammar;
use std::alloc::{AllocError, Global};

/// Where an item is in a text: the rank of its section, and what it is greater by than the item
/// before it.
#[derive(Clone, Copy)]
pub struct Place {
    pub rank: usize,
    pub key: Option<(u32, u32)>,
}

/// What was read so far: the items in order, how many of each rank, and the last item's place.
/// Of the sections below `clear` none is missing.
#[derive(Drop)]
pub struct ReadSoFar<Kept: Drop> {
    pub kept: Kept,
    pub counts: Vec<usize>,
    pub last: Option<Place>,
    pub clear: usize,
}

/// What was read before the first line: nothing.
pub fn nothing_read<G: Grammar>(
    alloc: Global,
    grammar: &G,
) -> Result<ReadSoFar<G::Kept>, AllocError>
    ensures items { IfOk result (λ so_far. G.kept so_far.kept ≡ []) }
    ensures known { IfOk result (λ so_far. IsKnown (G.rules grammar.now) [] so_far.counts.items so_far.last so_far.clear) }
{
    let counts = vec![in alloc; 0; grammar.sections().len()]?;
    Ok(ReadSoFar {
        kept: grammar.nothing(alloc),
        counts,
        last: None,
        clear: 0,
    })
}

/// Whether `end` has come.
pub fn has_ended<G: Grammar>(grammar: &G, so_far: &ReadSoFar<G::Kept>) -> bool
    requires { IsKnown (G.rules grammar.now) (G.kept so_far.now.kept) so_far.now.counts.items so_far.now.last so_far.now.clear }
    ensures { let rules = G.rules grammar.now in
        result ≡ was_read rules (G.kept so_far.now.kept) (end_rank rules) }
{
    let end = grammar.sections().len() - 1;
    so_far.counts[end] > 0
}

/// Puts an item that passed after those before it, and counts it.
pub fn push_item<G: Grammar>(
    grammar: &G,
    item: G::Item,
    place: Place,
    so_far: &mut ReadSoFar<G::Kept>,
) -> Result<(), AllocError>
    requires known { IsKnown (G.rules grammar.now) (G.kept so_far.old.kept) so_far.old.counts.items so_far.old.last so_far.old.clear }
    requires place { place ≡ place_of (G.rules grammar.now) item }
    requires ranked { place.rank < length (G.rules grammar.now).sections }
    requires passed { item_fault (G.rules grammar.now) (G.kept so_far.old.kept) item ≡ None }
    ensures items { OnOk result (G.kept so_far.new.kept ≡ G.kept so_far.old.kept ++ item ∷ []) }
    ensures known { OnOk result
        (IsKnown (G.rules grammar.now) (G.kept so_far.new.kept) so_far.new.counts.items so_far.new.last so_far.new.clear) }
{
    grammar.keep(&mut so_far.kept, item)?;
    so_far.counts[place.rank] += 1;
    so_far.last = Some(place);
    so_far.clear = place.rank;
    Ok(())
}
