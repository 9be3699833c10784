//! Laws of numbers: each is a function that does nothing, whose contract is the law. It calls the laws on which it
//! depends.

ghost use Rattle.number_types.specs.Operations.{NumberHasTable, NumberTellsBounds};
ghost use Rattle.number_types.specs.Called.{NumbersAnswer};

use escrow_laws::{bounds_are_told, numbers_have_tables};

/// A number has a table, and its operations have these bounds.
pub fn number_has_table()
    ensures { NumberHasTable }
{
    numbers_have_tables();
}

/// The bounds of a number's operations are those that the steps of its table tell.
pub fn number_tells_bounds()
    ensures { NumberTellsBounds }
{
    number_has_table();
    bounds_are_told();
}

/// Of each call of a number exactly one operation is legal at each of its values.
pub fn numbers_answer()
    ensures { NumbersAnswer }
{
    number_has_table();
}
