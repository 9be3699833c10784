//! Laws of the definitions: each is a function that does nothing, whose contract is the law.

ghost use Rattle.std.specs.Prelude.{◌≡◌, ℕ, map};
ghost use Rattle.number_types.specs.Operations.{op_bounds, ops_of_call};
ghost use Rattle.type_commands.specs.Accepted.{SaysYesOfMade, SaysYesOfTables};
ghost use Rattle.type_commands.specs.Rows.{any_bounds, any_ops, bounds_for, op_for};
ghost use Rattle.type_commands.specs.declared.rows.AnyOp.{AnyOp as AnyOpValue};

use declared_types::parts_tell_the_file;
use made_answers::{
    amounts_are_accepted, elements_are_accepted, made_is_accepted, numbers_are_accepted,
};
use number_text::written_is_read;
use number_types::NumberCall;
use type_text::lines_tell_the_file;

/// For each amount n the operations of a call that takes any are those with this amount, and so of the value; and
/// with n for N their bounds are those of these operations.
pub fn bounds_by_amount()
    ensures take { (n : ℕ) → map (op_for n) (any_ops NumberCall.TakeAny) ≡ ops_of_call NumberCall.TakeAny n }
    ensures give { (n : ℕ) → map (op_for n) (any_ops NumberCall.GiveAny) ≡ ops_of_call NumberCall.GiveAny n }
    ensures value { (n : ℕ) → map (op_for n) (any_ops NumberCall.Value) ≡ ops_of_call NumberCall.Value n }
    ensures bounds { (max n : ℕ) (op : AnyOpValue) → bounds_for n (any_bounds max op) ≡ op_bounds max (op_for n op) }
{}

/// `check` says `yes strong` of what is read from a text that `make` wrote: of each family's for update in place and for deferred
/// update, of accounts, counters and stocks for escrow too, and of a number for escrow.
pub fn says_yes_of_made()
    ensures { SaysYesOfMade }
{
    lines_tell_the_file();
    parts_tell_the_file();
    written_is_read();
    elements_are_accepted();
    amounts_are_accepted();
    numbers_are_accepted();
}

/// And yes of what is read from a text that `tables` wrote, exactly where the set holds the initial state and no step
/// leaves it.
pub fn says_yes_of_tables()
    ensures { SaysYesOfTables }
{
    lines_tell_the_file();
    parts_tell_the_file();
    written_is_read();
    made_is_accepted();
}
