//! What the converse asks of a type.

ghost use Rattle.number_types.specs.Operations.{number_table};
ghost use Rattle.declared_types.specs.Declarations.{table_of};
ghost use Rattle.dynamic_atomicity.specs.Converse.{StepsHaveOps};

use declared_types::{Declaration, DeclaredType};
use number_types::{NumberFile, number_has_table};
use type_table::TypeTable;

/// Each step of a declared type is by one of its operations.
pub fn steps_have_ops(declared: &DeclaredType)
    ensures { StepsHaveOps (table_of declared.now) }
{
    match declared.declaration() {
        Declaration::Table(file) => table_steps_have_ops(&file.table),
        Declaration::Number(number) => number_steps_have_ops(number),
    }
}

/// Each operation of a table has a name.
fn table_steps_have_ops(table: &TypeTable)
    ensures { StepsHaveOps table.now }
{
    let ops = table.ops();
    for op in ops {
        // (read for its clause on what is known of a name)
        let _call = op.call.as_bytes();
    }
}

/// A number without a name is legal nowhere.
fn number_steps_have_ops(number: &NumberFile)
    ensures { StepsHaveOps (number_table number.now) }
{
    number_has_table();
    // (read for what is known of a number)
    let _calls = number.calls();
}
