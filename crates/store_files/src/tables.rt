//! The types of a store's objects, which aren't checked.

ghost use Rattle.std.specs.Prelude.{◌≡◌, map, IfOk, IfErr};
ghost use Rattle.declared_types.specs.Declarations.{table_of};
ghost use Rattle.command_files.specs.Answers.{IsEarlyFault};
ghost use Rattle.object_types.specs.Types.{IsUnplaced};
ghost use Rattle.store_files.specs.Types.{AreTablesOf};

use command_files::Fault;
use declared_types::DeclaredType;
use std::alloc::Global;
use store_text::ObjectLine;

/// The types of the objects that the text at a path names, in their order.
///
/// # Errors
///
/// The first object whose place isn't that of a type; or memory was refused.
pub fn declared_for<'a, 'p>(
    alloc: Global,
    path: &'p str,
    declared: &'a [DeclaredType],
    objects: &[ObjectLine],
) -> Result<Vec<&'a DeclaredType>, Fault<'p>>
    ensures tables { IfOk result (λ types. AreTablesOf declared.now objects.now (map (λ t. table_of t.now) types.items)) }
    ensures refused { IfErr result (IsEarlyFault (IsUnplaced declared.now objects.now)) }
{
    let mut types = Vec::new(alloc);
    for (x, object) in objects.iter().enumerate() {
        match declared.get(object.file as usize) {
            Some(found) => types.push(found)?,
            None => {
                return Err(Fault::NoType {
                    path,
                    x,
                    place: object.file,
                });
            }
        }
    }
    Ok(types)
}
