//! The pairs of states that a file's relation lacks for a pair of operations.

ghost use Rattle.std.specs.Prelude.{◌≡◌, ◌<◌, ◌≤◌, ◌+◌, length, IfOk, OnOk};
ghost use Rattle.pair_needs.specs.LedPairs.{Adds, AreAllLed, AreGathered, AreListed, HasEnds, IsBegun, KeepsPairs, is_lacking};
ghost use Rattle.pair_needs.specs.Ends.{IsPair};
ghost use Rattle.pair_needs.specs.Leads.{AreLeads, IsLedTo};
ghost use Rattle.pair_needs.specs.Mends.{AreLacking};
ghost use Rattle.pair_needs.specs.declared.mends.LedPairs.{LedPairs as LedPairsValue};

use crate::ends::{Pair, ends_at};
use crate::leads::Lead;
use declared_types::TypeFile;
use equi_cert::Relation;
use std::alloc::{AllocError, Global};
use type_table::{TableKind, TypeTable, ends_within, runs_along, steps_within};

/// The pairs of states, not equal, to which the same operations lead from the ends of a pair.
#[derive(Drop)]
struct LedPairs {
    pair: Pair,
    found: Vec<(u16, u16)>,
    /// Those that were found, and the equal ones.
    seen: Relation,
}

/// The pairs that the relation lacks, ascending.
pub fn lacking_pairs(
    alloc: Global,
    file: &TypeFile,
    leads: &[Lead],
    pair: Pair,
) -> Result<Vec<(u16, u16)>, AllocError>
    requires leads { AreLeads file.now.table leads.now }
    requires pair { IsPair file.now.table pair }
    ensures { IfOk result (λ pairs. AreLacking pair.kind file.now pair.p pair.q pairs.items) }
{
    ends_within();
    let led = LedPairs::all(alloc, &file.table, leads, pair)?;
    let mut lacking = Vec::new(alloc);
    for a in 0..file.relation.states() {
        list_row(&led, &file.relation, a, &mut lacking)?;
    }
    Ok(lacking)
}

/// Adds the pairs of a first state to which the ends lead, and that are not of the relation.
fn list_row(
    led: &LedPairs,
    relation: &Relation,
    a: u16,
    lacking: &mut Vec<(u16, u16)>,
) -> Result<(), AllocError>
    requires fits { length led.now.seen ≡ length relation.now }
    requires state { a < length relation.now }
    requires listed { AreListed (is_lacking led.now.seen relation.now) (length relation.now) a 0 lacking.old.items }
    ensures { OnOk result (AreListed (is_lacking led.now.seen relation.now) (length relation.now) (a + 1) 0 lacking.new.items) }
{
    for b in 0..relation.states() {
        if led.seen.has(a, b) && !relation.has(a, b) {
            lacking.push((a, b))?;
        }
    }
    Ok(())
}

impl LedPairs {
    /// All of them, from the states to which lists lead.
    fn all(
        alloc: Global,
        table: &TypeTable,
        leads: &[Lead],
        pair: Pair,
    ) -> Result<LedPairs, AllocError>
        requires leads { AreLeads table.now leads.now }
        requires pair { IsPair table.now pair }
        ensures all { IfOk result (AreAllLed table.now) }
        ensures pair { IfOk result (λ b. b.pair ≡ pair) }
    {
        let mut led = LedPairs::first(alloc, table, leads, pair)?;
        for place in 0..usize::MAX {
            if place >= led.found.len() {
                return Ok(led);
            }
            led.go_on(table, place)?;
        }
        Ok(led)
    }

    /// The ends.
    fn first(
        alloc: Global,
        table: &TypeTable,
        leads: &[Lead],
        pair: Pair,
    ) -> Result<LedPairs, AllocError>
        requires leads { AreLeads table.now leads.now }
        requires pair { IsPair table.now pair }
        ensures gathered { IfOk result (AreGathered table.now 0 0) }
        ensures ends { IfOk result (HasEnds table.now pair leads.now (length leads.now)) }
        ensures pair { IfOk result (λ b. b.pair ≡ pair) }
    {
        ends_within();
        let mut led = LedPairs::nothing(alloc, table, pair)?;
        for place in 0..leads.len() {
            let lead = &leads[place];
            led.begin_at(table, lead.state)?;
        }
        Ok(led)
    }

    /// None.
    fn nothing(alloc: Global, table: &TypeTable, pair: Pair) -> Result<LedPairs, AllocError>
        ensures gathered { IfOk result (AreGathered table.now 0 0) }
        ensures pair { IfOk result (λ b. b.pair ≡ pair) }
    {
        let found = Vec::new(alloc);
        let seen = Relation::new(alloc, table.states())?;
        Ok(LedPairs { pair, found, seen })
    }

    /// Adds the ends at a state.
    fn begin_at(&mut self, table: &TypeTable, s: u16) -> Result<(), AllocError>
        requires gathered { AreGathered table.now 0 0 self.old }
        requires pair { IsPair table.now self.old.pair }
        requires state { s < table.now.states }
        requires led { IsLedTo table.now s }
        ensures { OnOk result (IsBegun table.now s self.old self.new) }
    {
        let Some(ends) = ends_at(table, self.pair, s) else {
            return Ok(());
        };
        let Some(held) = ends.held_first else {
            return Ok(());
        };
        let Some(requested) = ends.requested_first else {
            return Ok(());
        };
        match self.pair.kind {
            TableKind::Undo => self.add(held, requested),
            TableKind::Intentions => self.add_both(held, requested),
        }
    }

    /// Adds a pair in both orders.
    fn add_both(&mut self, a: u16, b: u16) -> Result<(), AllocError>
        requires first { a < length self.old.seen }
        requires second { b < length self.old.seen }
        ensures { OnOk result ((middle : LedPairsValue) × Adds a b self.old middle × Adds b a middle self.new) }
    {
        self.add(a, b)?;
        self.add(b, a)
    }

    /// Adds the pairs to which an operation leads from the one at a place.
    fn go_on(&mut self, table: &TypeTable, place: usize) -> Result<(), AllocError>
        requires gathered { AreGathered table.now place 0 self.old }
        requires place { place < length self.old.found.items }
        ensures gathered { OnOk result (AreGathered table.now (place + 1) 0 self.new) }
        ensures kept { OnOk result (KeepsPairs self.old self.new) }
        ensures pair { OnOk result (self.new.pair ≡ self.old.pair) }
    {
        steps_within();
        for k in 0..table.op_count() {
            self.follow(table, place, k)?;
        }
        Ok(())
    }

    /// Adds the pair to which k leads from the one at a place, where it leads from both of its states.
    fn follow(&mut self, table: &TypeTable, place: usize, k: u8) -> Result<(), AllocError>
        requires gathered { AreGathered table.now place k self.old }
        requires place { place < length self.old.found.items }
        requires operation { k < length table.now.ops }
        ensures gathered { OnOk result (AreGathered table.now place (k + 1) self.new) }
        ensures kept { OnOk result (KeepsPairs self.old self.new) }
        ensures more { OnOk result (length self.old.found.items ≤ length self.new.found.items) }
        ensures pair { OnOk result (self.new.pair ≡ self.old.pair) }
    {
        runs_along();
        let (a, b) = self.found[place];
        let Some(first) = table.next(a, k) else {
            return Ok(());
        };
        let Some(second) = table.next(b, k) else {
            return Ok(());
        };
        self.add(first, second)
    }

    /// Adds a pair that isn't there yet.
    fn add(&mut self, a: u16, b: u16) -> Result<(), AllocError>
        requires first { a < length self.old.seen }
        requires second { b < length self.old.seen }
        ensures { OnOk result (Adds a b self.old self.new) }
    {
        if self.seen.has(a, b) {
            return Ok(());
        }
        self.found.push((a, b))?;
        self.seen.add(a, b);
        Ok(())
    }
}
