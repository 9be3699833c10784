//! Laws of the checker: each is a function that does nothing, whose contract is the law. It calls the
//! laws on which it depends.

ghost use Rattle.table_checker.specs.At.{AtIsChecked, AtIsStrong};
ghost use Rattle.table_checker.specs.Answer.{OneAnswer};
ghost use Rattle.table_checker.specs.Declarations.{NumberIsChecked};
ghost use Rattle.table_checker.specs.Laws.{YesCovers, StrongYesCovers};

use equi_cert::ends_look;
use escrow_laws::{bounds_are_numeric, numeric_is_faultless};
use number_types::{number_has_table, number_tells_bounds};
use type_table::steps_within;

/// A yes gives covering over all lists of operations, or that the type is numeric.
pub fn yes_covers()
    ensures { YesCovers }
{
    steps_within();
    ends_look();
    bounds_are_numeric();
}

/// A strong yes gives strong covering over all lists of operations.
pub fn strong_yes_covers()
    ensures { StrongYesCovers }
{
    steps_within();
    ends_look();
    bounds_are_numeric();
}

/// Each file has one answer for each kind: two first reasons are equal, and none holds of a file that
/// passes. So `check` and `check_parallel` answer the same.
pub fn one_answer()
    ensures { OneAnswer }
{
    bounds_are_numeric();
    numeric_is_faultless();
}

/// A checked type is one at any state at which it may begin.
#[tactic(auto, using(crate::proofs::BeginsAt::at_is_checked))]
pub fn at_is_checked()
    ensures { AtIsChecked }
{}

/// And strongly where it was.
#[tactic(auto, using(crate::proofs::BeginsAt::at_is_strong))]
pub fn at_is_strong()
    ensures { AtIsStrong }
{}

/// A number is accepted for escrow, and strongly.
pub fn number_is_checked()
    ensures { NumberIsChecked }
{
    number_has_table();
    number_tells_bounds();
}
