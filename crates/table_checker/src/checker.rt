ghost use Rattle.std.specs.Prelude.{◌≡◌, true, length, MatchOption, OnOk};
ghost use Rattle.type_table.specs.Kind.{of_table};
ghost use Rattle.type_table.specs.StateSet.{has};
ghost use Rattle.declared_types.specs.TypeFile.{conflicts_of};
ghost use Rattle.table_checker.specs.Answer.{IsAnswer};
ghost use Rattle.table_checker.specs.Condition.{PassesEverywhere, IsFirstFailure};
ghost use Rattle.table_checker.specs.Checked.{IsCertified, IsStrong, condition_of};
ghost use Rattle.declared_types.specs.Declarations.{number_file};
ghost use Rattle.table_checker.specs.Laws.{CoversType};
ghost use Rattle.table_checker.specs.Refusal.{IsFirstOfCertificate};

use crate::checked_type::{CheckedType, condition_of};
use crate::laws::{number_is_checked, yes_covers};
use crate::parallel::first_failure_parallel;
use crate::reach::{Leave, first_leave};
use crate::refusal::CheckRefusal;
use crate::scan::{Triple, first_failure};
use declared_types::TypeFile;
use equi_cert::{CertFault, check_simulation};
use escrow_laws::{NumericFault, numeric};
use number_types::NumberFile;
use std::thread::Threads;
use type_table::{Kind, StateSet, TableKind, TypeTable};

/// Checks that a file is good for a kind of recovery. It takes no memory.
///
/// For update in place and deferred update, that the file's conflict table for the kind is enough: that
/// its set of states holds the initial state and is closed under steps, that its relation is a
/// simulation, and that each pair outside the table meets the kind's condition at each state of the
/// set. For escrow, that the type is numeric.
///
/// # Errors
///
/// The first refusal in the order of `CheckRefusal`. The file comes back.
pub fn check(file: TypeFile, kind: Kind) -> Result<CheckedType, (TypeFile, CheckRefusal)>
    ensures exact { IsAnswer kind file result }
    // What holds at each state of the set holds over all lists of operations.
    ensures covers { OnOk result (CoversType kind file) }
{
    yes_covers();
    match kind.table_kind() {
        Some(kind) => check_commuting(file, kind),
        None => check_numeric(file),
    }
}

/// Answers what `check` answers, and looks at pairs and states by all processors.
///
/// # Errors
///
/// As `check`. The file comes back.
pub fn check_parallel(
    rt: &(impl Threads + Sync),
    file: TypeFile,
    kind: Kind,
) -> Result<CheckedType, (TypeFile, CheckRefusal)>
    ensures exact { IsAnswer kind file result }
    // What holds at each state of the set holds over all lists of operations.
    ensures covers { OnOk result (CoversType kind file) }
{
    yes_covers();
    match kind.table_kind() {
        Some(kind) => check_commuting_parallel(rt, file, kind),
        None => check_numeric(file),
    }
}

/// Accepts a number for escrow: a number is numeric. It takes no memory.
pub fn check_number(number: NumberFile) -> CheckedType
    ensures exact { result ≡ record { kind = Kind.Escrow; file = number_file number } }
    ensures strong { IsStrong result }
    // Over all lists of operations.
    ensures covers { CoversType Kind.Escrow (number_file number) }
{
    yes_covers();
    number_is_checked();
    // (read for its clause on what is known of a number)
    let _calls = number.calls();
    CheckedType::number(number)
}

/// The check of a conflict table.
fn check_commuting(file: TypeFile, kind: TableKind) -> Result<CheckedType, (TypeFile, CheckRefusal)>
    ensures { IsAnswer (of_table kind) file result }
{
    if let Some(refusal) = certificate_refusal(&file) {
        return Err((file, refusal));
    }
    let failure = first_failure(condition_of(kind), &file, file.conflicts(kind));
    answer_of(kind, file, failure)
}

/// The same by all processors.
fn check_commuting_parallel(
    rt: &(impl Threads + Sync),
    file: TypeFile,
    kind: TableKind,
) -> Result<CheckedType, (TypeFile, CheckRefusal)>
    ensures { IsAnswer (of_table kind) file result }
{
    if let Some(refusal) = certificate_refusal(&file) {
        return Err((file, refusal));
    }
    let failure = first_failure_parallel(rt, condition_of(kind), &file, file.conflicts(kind));
    answer_of(kind, file, failure)
}

/// The answer to a file whose set and relation are certified, by the first triple that fails.
fn answer_of(
    kind: TableKind,
    file: TypeFile,
    failure: Option<Triple>,
) -> Result<CheckedType, (TypeFile, CheckRefusal)>
    requires certified { IsCertified file }
    requires searched { MatchOption failure
        (PassesEverywhere (condition_of kind) file (conflicts_of kind file))
        (λ f. IsFirstFailure (condition_of kind) file (conflicts_of kind file) f.p f.q f.s) }
    ensures { IsAnswer (of_table kind) file result }
{
    match failure {
        None => Ok(CheckedType::commuting(kind, file)),
        Some(Triple { p, q, s }) => Err((file, CheckRefusal::NotCommuting { p, q, s })),
    }
}

/// The check whether the type is numeric.
fn check_numeric(file: TypeFile) -> Result<CheckedType, (TypeFile, CheckRefusal)>
    ensures { IsAnswer Kind.Escrow file result }
{
    match numeric(&file.table) {
        Ok(bounds) => Ok(CheckedType::numeric(file, bounds)),
        Err(NumericFault { operation, state }) => {
            let refusal = CheckRefusal::NotNumeric {
                k: operation,
                s: state,
            };
            Err((file, refusal))
        }
    }
}

/// Why the file's set of states or its relation is refused, where it is.
fn certificate_refusal(file: &TypeFile) -> Option<CheckRefusal>
    ensures { MatchOption result (IsCertified file.now) (IsFirstOfCertificate file.now) }
{
    if !begins_inside(&file.table, &file.reach) {
        return Some(CheckRefusal::InitialOutside);
    }
    if let Some(Leave { s, k }) = first_leave(&file.table, &file.reach) {
        return Some(CheckRefusal::NotClosed { s, k });
    }
    match check_simulation(&file.table, &file.relation) {
        Ok(()) => None,
        Err(CertFault { s, t, k }) => Some(CheckRefusal::NotSimulation { s, t, k }),
    }
}

/// Whether a set of states holds the initial state.
fn begins_inside(table: &TypeTable, set: &StateSet) -> bool
    requires { length set.now ≡ table.now.states }
    ensures { result ≡ has set.now table.now.initial }
{
    set.has(table.initial())
}
