//! The test for operations that change nothing.

ghost use Rattle.std.specs.Prelude.{◌≡◌, ◌↔◌, ◌<◌, true, length, Some};
ghost use Rattle.type_table.specs.Table.{call_of, first_op};
ghost use Rattle.committed_reads.specs.Still.{is_still, IsStillCall};

use declared_types::Declaration;
use escrow_laws::Bounded;
use number_types::{number_has_table, number_tells_bounds};
use table_checker::CheckedType;
use type_table::{Kind, Operation, TypeTable};

/// Whether operation k passes the test: then it changes nothing. A table was tested once, at each state; in escrow it
/// looks at the operation's bounds.
pub fn is_still(checked: &CheckedType, k: Operation) -> bool
    requires { k < length checked.now.file.table.ops }
    ensures { result ≡ is_still checked.now k }
{
    match checked.kind() {
        Kind::Undo | Kind::Intentions => checked.is_still(k),
        Kind::Escrow => is_even(checked.bounded(k)),
    }
}

/// Whether each operation of a call, of which c is the first, passes the test. Of a number's call it is the first that moves
/// the number, if one does.
pub fn is_still_call(checked: &CheckedType, c: Operation) -> bool
    requires { first_op checked.now.file.table (call_of checked.now.file.table c) ≡ Some c }
    ensures { (result ≡ true) ↔ IsStillCall checked.now c }
{
    match checked.declared().declaration() {
        Declaration::Table(file) => is_still_call_in(checked, &file.table, c),
        Declaration::Number(number) => {
            number_tells_bounds();
            number_has_table();
            // (read for what is known of a number)
            let _calls = number.calls();
            is_still(checked, c)
        }
    }
}

/// Whether each operation of the call of c, which a table declares, passes it.
fn is_still_call_in(checked: &CheckedType, table: &TypeTable, c: Operation) -> bool
    requires table { table.now ≡ checked.now.file.table }
    requires operation { c < length table.now.ops }
    requires first { first_op table.now (call_of table.now c) ≡ Some c }
    ensures { (result ≡ true) ↔ IsStillCall checked.now c }
{
    let ops = table.ops();
    let name = ops[usize::from(table.column(c))].call;
    for k in 0..table.op_count() {
        if ops[usize::from(k)].call == name && !is_still(checked, Operation::listed(k)) {
            return false;
        }
    }
    true
}

/// Whether an operation gives as much as it takes.
fn is_even(op: Bounded) -> bool
    ensures { (result ≡ true) ↔ (op.gives ≡ op.takes) }
{
    op.gives == op.takes
}
