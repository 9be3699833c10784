//! New objects of checked types.

ghost use Rattle.std.specs.Prelude.{◌≡◌, map, IfOk};
ghost use Rattle.std.specs.Arc.{arc_value};
ghost use Rattle.objects.specs.Object.{AreNew, checked_types};

use crate::object::Object;
use std::alloc::{AllocError, Global};
use std::sync::Arc;
use table_checker::CheckedType;

/// New objects of these types, in their order.
pub fn new_objects(alloc: Global, types: &[Arc<CheckedType>]) -> Result<Vec<Object>, AllocError>
    ensures fresh { IfOk result (λ objects. AreNew objects.items) }
    ensures types { IfOk result (λ objects. checked_types objects.items ≡ (map arc_value types.now)) }
{
    let mut objects = Vec::with_capacity(alloc, types.len())?;
    for checked in types {
        objects.push_reserved(Object::new(alloc, Arc::clone(checked)?));
    }
    Ok(objects)
}
