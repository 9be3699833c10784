//! What is said of the pairs of a file.

ghost use Rattle.std.specs.Prelude.{◌≡◌, ◌≤◌, ◌↔◌, ◌<◌, true, length, is_some, IfOk, MatchOption};
ghost use Rattle.type_table.specs.Limits.{most_states};
ghost use Rattle.pair_needs.specs.Ends.{IsPair};
ghost use Rattle.pair_needs.specs.Explained.{AreRows, IsExplained, IsRow};
ghost use Rattle.pair_needs.specs.Explainers.{IsDifference, IsExplainer, IsOutside, IsWithin};
ghost use Rattle.pair_needs.specs.Mends.{IsTooLarge};
ghost use Rattle.pair_needs.specs.Needs.{IsNeed};
ghost use Rattle.pair_needs.specs.Witnesses.{IsLeastWitnessOf};

use crate::ends::Pair;
use crate::explained::{Explained, Row};
use crate::leads::Leads;
use crate::mends::lacking_pairs;
use crate::need::{Need, need_of};
use crate::witness::{Witness, least_witness};
use declared_types::TypeFile;
use exact_tables::Distances;
use std::alloc::{AllocError, Global};
use table_checker::{condition_of, first_failing_state};
use type_table::{StateSet, TableKind};

/// What is known of a file before its pairs are looked at.
#[derive(Drop)]
pub struct Explainer {
    distances: Distances,
    leads: Leads,
    /// The file with the set of those of its states to which no list leads, where there are any.
    outside: Option<TypeFile>,
}

impl Explainer {
    /// That of a file.
    ///
    /// # Errors
    ///
    /// Memory was refused.
    pub fn new(alloc: Global, file: &TypeFile) -> Result<Explainer, AllocError>
        ensures { IfOk result (IsExplainer file.now) }
    {
        let leads = Leads::new(alloc, &file.table)?;
        let outside = outside_of(alloc, file, &leads.set)?;
        let distances = Distances::new(alloc, &file.table)?;
        Ok(Explainer {
            distances,
            leads,
            outside,
        })
    }

    /// The set of the states to which some list leads.
    pub fn led(&self) -> StateSet
        ensures { result ≡ self.now.leads.set }
    {
        self.leads.set
    }

    /// What is said of each pair of operations, a row for each requested one.
    ///
    /// # Errors
    ///
    /// Memory was refused.
    pub fn rows(
        &self,
        alloc: Global,
        kind: TableKind,
        file: &TypeFile,
    ) -> Result<Vec<Row>, AllocError>
        requires { IsExplainer file.now self.now }
        ensures { IfOk result (λ rows. AreRows kind file.now rows.items) }
    {
        let mut rows = Vec::new(alloc);
        for p in 0..file.table.op_count() {
            let row = self.row(alloc, kind, file, p)?;
            rows.push(row)?;
        }
        Ok(rows)
    }

    /// What is said of a requested operation with each held one.
    fn row(&self, alloc: Global, kind: TableKind, file: &TypeFile, p: u8) -> Result<Row, AllocError>
        requires known { IsExplainer file.now self.now }
        requires requested { p < length file.now.table.ops }
        ensures { IfOk result (IsRow kind file.now p) }
    {
        let mut pairs = Vec::new(alloc);
        for q in 0..file.table.op_count() {
            let pair = self.pair(alloc, kind, file, p, q)?;
            pairs.push(pair)?;
        }
        Ok(Row {
            requested: p,
            pairs,
        })
    }

    /// What is said of a pair of a requested operation p and a held one q.
    ///
    /// # Errors
    ///
    /// Memory was refused.
    pub fn pair(
        &self,
        alloc: Global,
        kind: TableKind,
        file: &TypeFile,
        p: u8,
        q: u8,
    ) -> Result<Explained, AllocError>
        requires known { IsExplainer file.now self.now }
        requires requested { p < length file.now.table.ops }
        requires held { q < length file.now.table.ops }
        ensures { IfOk result (IsExplained kind file.now p q) }
    {
        let pair = Pair { kind, p, q };
        let leads = &self.leads.found;
        let witness = least_witness(alloc, &self.distances, &file.table, leads, pair)?;
        let need = need_of(&self.distances, file, leads, pair, witness.is_some());
        self.with_mends(alloc, file, pair, need, witness)
    }

    /// The same, with what mends the file.
    fn with_mends(
        &self,
        alloc: Global,
        file: &TypeFile,
        pair: Pair,
        need: Need,
        witness: Option<Witness>,
    ) -> Result<Explained, AllocError>
        requires known { IsExplainer file.now self.now }
        requires pair { IsPair file.now.table pair }
        requires need { IsNeed pair.kind file.now pair.p pair.q need }
        requires witness { IsLeastWitnessOf pair.kind file.now.table pair.p pair.q witness }
        ensures { IfOk result (IsExplained pair.kind file.now pair.p pair.q) }
    {
        let listed = file.conflicts(pair.kind).conflicts(pair.p, pair.q);
        let mut explained = Explained {
            requested: pair.p,
            held: pair.q,
            listed,
            need,
            witness,
            lacking: Vec::new(alloc),
            too_large: false,
        };
        if explained.is_to_mend() {
            explained.lacking = lacking_pairs(alloc, file, &self.leads.found, pair)?;
            explained.too_large = self.fails_outside(file, pair);
        }
        Ok(explained)
    }

    /// Whether a pair fails by the file at a state of its set to which no list leads.
    fn fails_outside(&self, file: &TypeFile, pair: Pair) -> bool
        requires known { IsExplainer file.now self.now }
        requires pair { IsPair file.now.table pair }
        ensures { (result ≡ true) ↔ IsTooLarge pair.kind file.now pair.p pair.q }
    {
        match &self.outside {
            None => false,
            Some(other) => {
                first_failing_state(condition_of(pair.kind), other, pair.p, pair.q).is_some()
            }
        }
    }
}

/// The file with the set of those of its states to which no list leads, where there are any.
fn outside_of(
    alloc: Global,
    file: &TypeFile,
    led: &StateSet,
) -> Result<Option<TypeFile>, AllocError>
    requires { length led.now ≡ file.now.table.states }
    ensures { IfOk result (IsOutside file.now led.now) }
{
    let Some(reach) = difference(&file.reach, led, file.table.states()) else {
        return Ok(None);
    };
    let table = file.table.copy(alloc)?;
    let relation = file.relation.copy(alloc)?;
    let undo = file.undo.copy();
    let intentions = file.intentions.copy();
    Ok(Some(TypeFile {
        table,
        reach,
        relation,
        undo,
        intentions,
    }))
}

/// The states of the first set that aren't of the second, where there are any.
fn difference(first: &StateSet, second: &StateSet, states: u16) -> Option<StateSet>
    requires first { length first.now ≡ states }
    requires second { length second.now ≡ states }
    requires fits { states ≤ most_states }
    ensures { MatchOption result (IsWithin first.now second.now) (IsDifference first.now second.now) }
{
    let mut set = StateSet::empty(states);
    let mut some = false;
    for s in 0..states {
        if first.has(s) && !second.has(s) {
            set.add(s);
            some = true;
        }
    }
    if some { Some(set) } else { None }
}
