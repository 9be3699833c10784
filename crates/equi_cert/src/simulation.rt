//! The search for the first pair and operation at which a relation is no simulation.

ghost use Rattle.std.specs.Prelude.{◌≡◌, ◌<◌, ◌↔◌, length, IsOk, IfErr, MatchOption};
ghost use Rattle.type_table.specs.Table.{next};
ghost use Rattle.equi_cert.specs.Relation.{relates};
ghost use Rattle.equi_cert.specs.Simulation.{IsSimulation};
ghost use Rattle.equi_cert.specs.Fault.{leads_outside, NeverFails, IsFirstFault};
ghost use Rattle.equi_cert.specs.Scan.{PairStays, IsFirstOperation, RowHasNoFault, IsFirstOfRow};

use crate::cert_fault::CertFault;
use crate::relation::Relation;
use type_table::TypeTable;

/// Checks that a relation between the states of a type is a simulation. It takes no memory.
///
/// # Errors
///
/// The first fault in ascending order of its first state, second state and operation.
pub fn check_simulation(table: &TypeTable, relation: &Relation) -> Result<(), CertFault>
    requires { length relation.now ≡ table.now.states }
    ensures exact { IsOk result ↔ IsSimulation table.now (relates relation.now) }
    ensures fault { IfErr result (λ f. IsFirstFault table.now (relates relation.now) f.s f.t f.k) }
{
    match first_fault(table, relation) {
        None => Ok(()),
        Some(fault) => Err(fault),
    }
}

/// The first fault of all.
fn first_fault(table: &TypeTable, relation: &Relation) -> Option<CertFault>
    requires { length relation.now ≡ table.now.states }
    ensures { MatchOption result
        (NeverFails table.now (relates relation.now))
        (λ f. IsFirstFault table.now (relates relation.now) f.s f.t f.k) }
{
    for s in 0..relation.states() {
        if let Some(fault) = first_fault_of(table, relation, s) {
            return Some(fault);
        }
    }
    None
}

/// The first fault of a first state. A state that is paired with itself has no fault, since it goes
/// on to one state.
fn first_fault_of(table: &TypeTable, relation: &Relation, s: u16) -> Option<CertFault>
    requires fits { length relation.now ≡ table.now.states }
    requires first { s < table.now.states }
    ensures { MatchOption result
        (RowHasNoFault table.now (relates relation.now) s)
        (λ f. (f.s ≡ s) × IsFirstOfRow table.now (relates relation.now) s f.t f.k) }
{
    for t in 0..relation.states() {
        if s != t && relation.has(s, t) {
            if let Some(k) = first_failing_operation(table, relation, s, t) {
                return Some(CertFault { s, t, k });
            }
        }
    }
    None
}

/// The first operation that leads from a pair outside the relation.
fn first_failing_operation(table: &TypeTable, relation: &Relation, s: u16, t: u16) -> Option<u8>
    requires fits { length relation.now ≡ table.now.states }
    requires first { s < table.now.states }
    requires second { t < table.now.states }
    ensures { MatchOption result
        (PairStays table.now (relates relation.now) s t)
        (IsFirstOperation table.now (relates relation.now) s t) }
{
    for k in 0..table.op_count() {
        if fails_at(table, relation, s, t, k) {
            return Some(k);
        }
    }
    None
}

/// Whether an operation is legal in s, and is illegal in t or leads to a pair outside the relation.
fn fails_at(table: &TypeTable, relation: &Relation, s: u16, t: u16, k: u8) -> bool
    requires fits { length relation.now ≡ table.now.states }
    requires first { s < table.now.states }
    requires second { t < table.now.states }
    requires operation { k < length table.now.ops }
    ensures { result ≡ leads_outside (relates relation.now) (next table.now s k) (next table.now t k) }
{
    let Some(after_s) = table.next(s, k) else {
        return false;
    };
    match table.next(t, k) {
        None => true,
        Some(after_t) => !(after_s == after_t || relation.has(after_s, after_t)),
    }
}
