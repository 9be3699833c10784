//! How long a list is that shows that a pair fails at a state, and the first of the shortest.

ghost use Rattle.std.specs.Prelude.{◌≡◌, ◌<◌, ◌↔◌, true, length, IfOk, IfSome, MatchOption, Some};
ghost use Rattle.std.specs.Option.{option_map};
ghost use Rattle.table_checker.specs.Condition.{end_of_two};
ghost use Rattle.type_table.specs.Commute.{Commutes};
ghost use Rattle.exact_tables.specs.Distances.{AreDistances};
ghost use Rattle.exact_tables.specs.Tell.{comes_before};
ghost use Rattle.pair_needs.specs.Ends.{AreAlike, AreEnds, IsFirstParting, IsFirstShown, IsLeastParting, IsLeastShown, IsPair, first_shown, is_later, lesser_of};
ghost use Rattle.pair_needs.specs.Needs.{FailsStronglyAt, only};
ghost use Rattle.pair_needs.specs.Witnesses.{IsAsked};

use exact_tables::{Distances, distinguish};
use std::alloc::{AllocError, Global};
use type_table::{TableKind, TypeTable};

/// A pair of operations of a kind with a conflict table: p is requested, q is held.
#[derive(Clone, Copy)]
pub struct Pair {
    pub kind: TableKind,
    pub p: u8,
    pub q: u8,
}

/// Where both orders of a pair end.
#[derive(Clone, Copy)]
pub struct Ends {
    /// Of q and then p.
    pub held_first: Option<u16>,
    /// Of p and then q.
    pub requested_first: Option<u16>,
}

/// A list that shows that a pair fails at a state.
#[derive(Drop)]
pub struct Shown {
    /// It is q and then p that is legal, and p and then q that is not.
    pub held_first: bool,
    pub tell: Vec<u8>,
}

/// The ends of a pair at a state, where something is asked of it there: in place where q and then p is
/// legal, with deferred update where each is.
pub fn ends_at(table: &TypeTable, pair: Pair, s: u16) -> Option<Ends>
    requires pair { IsPair table.now pair }
    requires state { s < table.now.states }
    ensures { MatchOption result (IsAsked pair.kind table.now pair.p pair.q s → ⊥) (AreEnds table.now pair s) }
{
    match pair.kind {
        TableKind::Undo => {
            let held_first = Some(end_of(table, s, pair.q, pair.p)?);
            Some(Ends {
                held_first,
                requested_first: end_of(table, s, pair.p, pair.q),
            })
        }
        TableKind::Intentions => {
            let after_p = table.next(s, pair.p)?;
            let after_q = table.next(s, pair.q)?;
            Some(Ends {
                held_first: table.next(after_q, pair.p),
                requested_first: table.next(after_p, pair.q),
            })
        }
    }
}

/// The end of one operation and then another.
fn end_of(table: &TypeTable, s: u16, first: u8, second: u8) -> Option<u16>
    requires state { s < table.now.states }
    requires first { first < length table.now.ops }
    requires second { second < length table.now.ops }
    ensures exact { result ≡ end_of_two table.now s first second }
    ensures inside { IfSome result (λ t. t < table.now.states) }
{
    let middle = table.next(s, first)?;
    table.next(middle, second)
}

/// How long the shortest list is that shows that a pair fails at a state, or None where it doesn't fail.
pub fn shown_length(distances: &Distances, table: &TypeTable, pair: Pair, s: u16) -> Option<u32>
    requires distances { AreDistances table.now distances.now }
    requires pair { IsPair table.now pair }
    requires state { s < table.now.states }
    ensures { MatchOption result
        (Commutes pair.kind table.now (only s) pair.p pair.q)
        (IsLeastShown pair.kind table.now pair.p pair.q s) }
{
    let ends = ends_at(table, pair, s)?;
    let Some(requested) = ends.requested_first else {
        return Some(0);
    };
    let Some(held) = ends.held_first else {
        return Some(0);
    };
    told_length(distances, table, pair.kind, held, requested)
}

/// How many operations part two ends, or None where they are alike.
fn told_length(
    distances: &Distances,
    table: &TypeTable,
    kind: TableKind,
    held: u16,
    requested: u16,
) -> Option<u32>
    requires distances { AreDistances table.now distances.now }
    requires held { held < table.now.states }
    requires requested { requested < table.now.states }
    ensures { MatchOption result
        (AreAlike kind table.now (Some held) (Some requested))
        (IsLeastParting kind table.now (Some held) (Some requested)) }
{
    match kind {
        TableKind::Undo => distances.between(held, requested),
        TableKind::Intentions => {
            let one_way = distances.between(held, requested);
            let other_way = distances.between(requested, held);
            lesser(one_way, other_way)
        }
    }
}

/// The lesser of two numbers that may not be there.
fn lesser(a: Option<u32>, b: Option<u32>) -> Option<u32>
    ensures { result ≡ lesser_of a b }
{
    match (a, b) {
        (None, b) => b,
        (Some(a), None) => Some(a),
        (Some(a), Some(b)) => Some(if b < a { b } else { a }),
    }
}

/// The first of the shortest lists that show that a pair fails at a state, or None where it doesn't
/// fail.
pub fn shown_at(
    alloc: Global,
    distances: &Distances,
    table: &TypeTable,
    pair: Pair,
    s: u16,
) -> Result<Option<Shown>, AllocError>
    requires distances { AreDistances table.now distances.now }
    requires pair { IsPair table.now pair }
    requires state { s < table.now.states }
    ensures { IfOk result (λ found. MatchOption found
        (Commutes pair.kind table.now (only s) pair.p pair.q)
        (IsFirstShown pair.kind table.now pair.p pair.q s)) }
{
    let Some(ends) = ends_at(table, pair, s) else {
        return Ok(None);
    };
    let Some(requested) = ends.requested_first else {
        return Ok(Some(Shown {
            held_first: true,
            tell: Vec::new(alloc),
        }));
    };
    let Some(held) = ends.held_first else {
        return Ok(Some(Shown {
            held_first: false,
            tell: Vec::new(alloc),
        }));
    };
    told_at(alloc, distances, table, pair.kind, held, requested)
}

/// The first of the shortest lists that part two ends, or None where they are alike.
fn told_at(
    alloc: Global,
    distances: &Distances,
    table: &TypeTable,
    kind: TableKind,
    held: u16,
    requested: u16,
) -> Result<Option<Shown>, AllocError>
    requires distances { AreDistances table.now distances.now }
    requires held { held < table.now.states }
    requires requested { requested < table.now.states }
    ensures { IfOk result (λ found. MatchOption found
        (AreAlike kind table.now (Some held) (Some requested))
        (IsFirstParting kind table.now (Some held) (Some requested))) }
{
    match kind {
        TableKind::Undo => {
            let one_way = distinguish(alloc, distances, table, held, requested)?;
            Ok(shown_by(true, one_way))
        }
        TableKind::Intentions => {
            let one_way = distinguish(alloc, distances, table, held, requested)?;
            let other_way = distinguish(alloc, distances, table, requested, held)?;
            Ok(first_shown(one_way, other_way))
        }
    }
}

fn shown_by(held_first: bool, list: Option<Vec<u8>>) -> Option<Shown>
    ensures { result ≡ option_map (λ tell. record { held_first = held_first; tell = tell }) list }
{
    match list {
        None => None,
        Some(tell) => Some(Shown { held_first, tell }),
    }
}

/// The shorter of two lists, and the first of two as long. The first one is of q and then p.
fn first_shown(one_way: Option<Vec<u8>>, other_way: Option<Vec<u8>>) -> Option<Shown>
    ensures { result ≡ first_shown one_way other_way }
{
    match (one_way, other_way) {
        (None, w) => shown_by(false, w),
        (Some(v), None) => shown_by(true, Some(v)),
        (Some(v), Some(w)) => Some(sooner_shown(v, w)),
    }
}

fn sooner_shown(v: Vec<u8>, w: Vec<u8>) -> Shown
    ensures { Some result ≡ first_shown (Some v) (Some w) }
{
    if is_later(&v, &w) {
        Shown {
            held_first: false,
            tell: w,
        }
    } else {
        Shown {
            held_first: true,
            tell: v,
        }
    }
}

/// Whether w comes before v: it is shorter, or as long and before it in ascending order.
fn is_later(v: &[u8], w: &[u8]) -> bool
    ensures { result ≡ is_later v.now w.now }
{
    w.len() < v.len() || (w.len() == v.len() && comes_before(w, v))
}

/// Whether v comes before w in ascending order.
fn comes_before(v: &[u8], w: &[u8]) -> bool
    ensures { result ≡ comes_before v.now w.now }
{
    for place in 0..w.len() {
        if place >= v.len() {
            return true;
        }
        if v[place] != w[place] {
            return v[place] < w[place];
        }
    }
    false
}

/// Whether a pair fails the stronger form at a state: for update in place the two-way one.
pub fn fails_strongly(distances: &Distances, table: &TypeTable, pair: Pair, s: u16) -> bool
    requires distances { AreDistances table.now distances.now }
    requires pair { IsPair table.now pair }
    requires state { s < table.now.states }
    ensures { (result ≡ true) ↔ FailsStronglyAt pair.kind table.now pair.p pair.q s }
{
    let Some(ends) = ends_at(table, pair, s) else {
        return false;
    };
    let Some(requested) = ends.requested_first else {
        return true;
    };
    let Some(held) = ends.held_first else {
        return true;
    };
    let one_way = distances.between(held, requested);
    let other_way = distances.between(requested, held);
    one_way.is_some() || other_way.is_some()
}
