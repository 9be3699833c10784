ghost use Rattle.std.specs.Prelude.{◌≡◌, true, length, IfOk, IfErr};
ghost use Rattle.std.specs.List.{list_any};
ghost use Rattle.equi_cert.specs.Relation.{relates};
ghost use Rattle.type_table.specs.Table.{IsTable};
ghost use Rattle.exact_tables.specs.Exact.{IsExact};
ghost use Rattle.table_maker.specs.Made.{IsMadeFile};
ghost use Rattle.table_maker.specs.declared.make_error.MakeError.TheVariants.{NoMemory};

use crate::made_conflicts::made_conflicts;
use crate::make_error::MakeError;
use declared_types::TypeFile;
use exact_tables::Distances;
use std::alloc::{AllocError, Global};
use type_table::{ConflictTable, StateSet, TableKind, TypeTable};

/// The file of a table and a set of its states that isn't empty, with the exact relation: a state is
/// related to another exactly where it looks like it, over all lists of operations. For each kind it
/// has the pairs whose condition fails at some state of the set.
///
/// # Errors
///
/// `NoMemory` alone.
pub fn make_tables(alloc: Global, table: &TypeTable, set: StateSet) -> Result<TypeFile, MakeError>
    requires fits { length set ≡ table.now.states }
    requires some { list_any (λ member. member) set ≡ true }
    ensures table { IfOk result (λ file. file.table ≡ table.now) }
    ensures set { IfOk result (λ file. file.reach ≡ set) }
    ensures made { IfOk result IsMadeFile }
    ensures memory { IfErr result (λ error. error ≡ NoMemory) }
{
    let mut file = bare_file(alloc, table, set)?;
    file.undo = made_conflicts(TableKind::Undo, &file);
    file.intentions = made_conflicts(TableKind::Intentions, &file);
    Ok(file)
}

/// The file without conflicts.
fn bare_file(alloc: Global, table: &TypeTable, set: StateSet) -> Result<TypeFile, AllocError>
    requires fits { length set ≡ table.now.states }
    requires some { list_any (λ member. member) set ≡ true }
    ensures table { IfOk result (λ file. file.table ≡ table.now) }
    ensures set { IfOk result (λ file. file.reach ≡ set) }
    ensures whole { IfOk result (λ file. IsTable file.table) }
    ensures relation { IfOk result (λ file. IsExact file.table (relates file.relation)) }
{
    let relation = Distances::new(alloc, table)?.relation(alloc, table)?;
    let table = table.copy(alloc)?;
    let ops = table.op_count();
    Ok(TypeFile {
        table,
        reach: set,
        relation,
        undo: ConflictTable::new(ops),
        intentions: ConflictTable::new(ops),
    })
}
