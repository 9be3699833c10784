//! The least way to show that a pair fails in some run.

ghost use Rattle.std.specs.Prelude.{◌≡◌, ◌<◌, length, IfOk, IfSome, MatchOption, Some, slice_get};
ghost use Rattle.type_table.specs.Commute.{Commutes};
ghost use Rattle.exact_tables.specs.Distances.{AreDistances};
ghost use Rattle.pair_needs.specs.Ends.{IsPair};
ghost use Rattle.pair_needs.specs.Leads.{AreLeads};
ghost use Rattle.pair_needs.specs.Needs.{only};
ghost use Rattle.pair_needs.specs.Places.{IsLeastPlace, IsPlace, NoneFails, better_of, is_better};
ghost use Rattle.pair_needs.specs.Witnesses.{IsLeastWitnessOf};
ghost use Rattle.pair_needs.specs.declared.leads.Lead.{Lead as LeadValue};

use crate::ends::{Pair, shown_at, shown_length};
use crate::leads::Lead;
use exact_tables::Distances;
use std::alloc::{AllocError, Global};
use type_table::{TypeTable, ends_within};

/// How a pair fails that some run shows.
#[derive(Drop)]
pub struct Witness {
    /// The state at which it fails.
    pub state: u16,
    /// It is q, held, and then p, requested, that is legal, and p and then q that is not.
    pub held_first: bool,
    /// A list that leads to the state.
    pub lead: Vec<u8>,
    /// A list that tells the two ends apart, which is empty where one order is illegal.
    pub tell: Vec<u8>,
}

/// A place among the leads, and how long its lists are together.
#[derive(Clone, Copy)]
struct Least {
    place: usize,
    state: u16,
    size: usize,
}

/// The least of a pair, where it fails in a run: by the length of both lists together, then by the
/// state, then by the lists in ascending order.
pub fn least_witness(
    alloc: Global,
    distances: &Distances,
    table: &TypeTable,
    leads: &[Lead],
    pair: Pair,
) -> Result<Option<Witness>, AllocError>
    requires distances { AreDistances table.now distances.now }
    requires leads { AreLeads table.now leads.now }
    requires pair { IsPair table.now pair }
    ensures { IfOk result (IsLeastWitnessOf pair.kind table.now pair.p pair.q) }
{
    ends_within();
    let Some(least) = least_place(distances, table, leads, pair) else {
        return Ok(None);
    };
    let lead = &leads[least.place];
    let Some(shown) = shown_at(alloc, distances, table, pair, lead.state)? else {
        return Ok(None);
    };
    let list = Vec::from_slice(alloc, &lead.list)?;
    Ok(Some(Witness {
        state: lead.state,
        held_first: shown.held_first,
        lead: list,
        tell: shown.tell,
    }))
}

/// The place of the state with the shortest lists, and of these the least state.
fn least_place(
    distances: &Distances,
    table: &TypeTable,
    leads: &[Lead],
    pair: Pair,
) -> Option<Least>
    requires distances { AreDistances table.now distances.now }
    requires leads { AreLeads table.now leads.now }
    requires pair { IsPair table.now pair }
    ensures { MatchOption result
        (NoneFails pair.kind table.now pair.p pair.q leads.now (length leads.now))
        (IsLeastPlace pair.kind table.now pair.p pair.q leads.now (length leads.now)) }
{
    let mut least = None;
    for place in 0..leads.len() {
        let found = found_at(distances, table, leads, pair, place);
        least = better(least, found);
    }
    least
}

/// A place, where the pair fails at its state.
fn found_at(
    distances: &Distances,
    table: &TypeTable,
    leads: &[Lead],
    pair: Pair,
    place: usize,
) -> Option<Least>
    requires distances { AreDistances table.now distances.now }
    requires leads { AreLeads table.now leads.now }
    requires pair { IsPair table.now pair }
    requires place { place < length leads.now }
    ensures none { MatchOption result
        ((m : LeadValue) → slice_get leads.now place ≡ Some m → Commutes pair.kind table.now (only m.state) pair.p pair.q)
        (IsPlace pair.kind table.now pair.p pair.q leads.now) }
    ensures place { IfSome result (λ l. l.place ≡ place) }
{
    ends_within();
    let lead = &leads[place];
    let length = shown_length(distances, table, pair, lead.state)?;
    Some(Least {
        place,
        state: lead.state,
        size: lead.list.len() + length as usize,
    })
}

/// The one of fewer operations, or of a lesser state.
fn better(least: Option<Least>, found: Option<Least>) -> Option<Least>
    ensures { result ≡ better_of least found }
{
    match (least, found) {
        (None, found) => found,
        (Some(least), None) => Some(least),
        (Some(least), Some(found)) => Some(if is_better(found, least) {
            found
        } else {
            least
        }),
    }
}

fn is_better(found: Least, least: Least) -> bool
    ensures { result ≡ is_better found least }
{
    found.size < least.size || (found.size == least.size && found.state < least.state)
}
