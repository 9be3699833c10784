//! Why a pair has to be in a conflict table.

ghost use Rattle.std.specs.Prelude.{◌≡◌, ◌↔◌, true};
ghost use Rattle.exact_tables.specs.Distances.{AreDistances};
ghost use Rattle.pair_needs.specs.Ends.{IsPair};
ghost use Rattle.pair_needs.specs.Leads.{AreLeads};
ghost use Rattle.pair_needs.specs.Needs.{FailsInRun, FailsStronglyInRun, IsNeed};

use crate::ends::{Pair, fails_strongly};
use crate::leads::Lead;
use declared_types::TypeFile;
use exact_tables::Distances;
use table_checker::{condition_of, first_failing_state};
use type_table::{TypeTable, ends_within};

/// Why a pair of operations has to be in a conflict table: the first reason that holds.
#[derive(Clone, Copy, Debug, PartialEq, Eq)]
pub enum Need {
    /// Some run shows that it fails.
    Run,
    /// It fails by the file's set and relation alone.
    File,
    /// It fails in the stronger form alone: of update in place, both ways.
    Strong,
    /// It needn't be there.
    Nothing,
}

/// The reason for a pair, of which is known whether a run shows that it fails.
pub fn need_of(
    distances: &Distances,
    file: &TypeFile,
    leads: &[Lead],
    pair: Pair,
    in_run: bool,
) -> Need
    requires distances { AreDistances file.now.table distances.now }
    requires leads { AreLeads file.now.table leads.now }
    requires pair { IsPair file.now.table pair }
    requires run { (in_run ≡ true) ↔ FailsInRun pair.kind file.now.table pair.p pair.q }
    ensures { IsNeed pair.kind file.now pair.p pair.q result }
{
    if in_run {
        return Need::Run;
    }
    if first_failing_state(condition_of(pair.kind), file, pair.p, pair.q).is_some() {
        return Need::File;
    }
    if fails_strongly_in_run(distances, &file.table, leads, pair) {
        Need::Strong
    } else {
        Need::Nothing
    }
}

/// Whether a pair fails the stronger form at a state to which some list leads.
fn fails_strongly_in_run(
    distances: &Distances,
    table: &TypeTable,
    leads: &[Lead],
    pair: Pair,
) -> bool
    requires distances { AreDistances table.now distances.now }
    requires leads { AreLeads table.now leads.now }
    requires pair { IsPair table.now pair }
    ensures { (result ≡ true) ↔ FailsStronglyInRun pair.kind table.now pair.p pair.q }
{
    ends_within();
    for place in 0..leads.len() {
        let lead = &leads[place];
        if fails_strongly(distances, table, pair, lead.state) {
            return true;
        }
    }
    false
}
