//! The test for operations that change nothing, at each state of a file's set.

ghost use Rattle.std.specs.Prelude.{◌≡◌, ◌<◌, length, Some};
ghost use Rattle.type_table.specs.Table.{IsTable};
ghost use Rattle.equi_cert.specs.Relation.{relates};
ghost use Rattle.table_checker.specs.Still.{AreStill, is_still_at, is_still_in, leads_still};

use declared_types::TypeFile;
use equi_cert::Relation;
use type_table::{MOST_OPS, Operation};

/// Of each of the file's operations whether it passes the test; of other places no.
pub(crate) fn still_operations(file: &TypeFile) -> [bool; MOST_OPS]
    requires { IsTable file.now.table }
    ensures { AreStill file.now result }
{
    let mut still = [false; MOST_OPS];
    for k in 0..file.table.op_count() {
        still[usize::from(k)] = is_still_in(file, Operation::listed(k));
    }
    still
}

/// Whether operation k leads from each state of the file's set to the same state, or to one that is related both ways.
fn is_still_in(file: &TypeFile, k: Operation) -> bool
    requires table { IsTable file.now.table }
    requires operation { k < length file.now.table.ops }
    ensures { result ≡ is_still_in file.now k }
{
    for s in 0..file.table.states() {
        if !is_still_at(file, s, k) {
            return false;
        }
    }
    true
}

/// Whether it does from this state, if that is of the set.
fn is_still_at(file: &TypeFile, s: u16, k: Operation) -> bool
    requires state { s < file.now.table.states }
    requires operation { k < length file.now.table.ops }
    ensures { result ≡ is_still_at file.now k s }
{
    if !file.reach.has(s) {
        return true;
    }
    match file.table.next(s, file.table.column(k)) {
        Some(next) => is_same_or_related(&file.relation, s, next),
        None => true,
    }
}

/// Whether a state is the same as another, or related to it both ways.
fn is_same_or_related(relation: &Relation, s: u16, t: u16) -> bool
    requires first { s < length relation.now }
    requires second { t < length relation.now }
    ensures { result ≡ leads_still (relates relation.now) s (Some t) }
{
    s == t || (relation.has(s, t) && relation.has(t, s))
}
