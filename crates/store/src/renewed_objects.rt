//! Objects that begin anew at their states.

ghost use Rattle.std.specs.Prelude.{◌≡◌, map, IfOk, IfSome};
ghost use Rattle.table_checker.specs.At.{checked_at, IsInside};
ghost use Rattle.object_trait.specs.Committed.{committed_of};
ghost use Rattle.object_trait.specs.Meaning.{state_of};
ghost use Rattle.store.specs.Renews.{AreBeginStates, AreRenewed, IsRenewedAt};

use object_trait::Renew;
use std::alloc::{AllocError, Global};
use std::sync::Arc;
use table_checker::CheckedType;

/// An object for each, as it is made of its type at the state that it has. Objects of one type that are
/// at one state share it.
///
/// # Errors
///
/// Memory was refused.
pub(crate) fn renewed_objects<R: Renew>(
    alloc: Global,
    objects: &Vec<R>,
) -> Result<Vec<R>, AllocError>
    requires { AreBeginStates state_of (map R.meaning objects.now.items) }
    ensures { IfOk result (λ new. AreRenewed state_of (map R.meaning objects.now.items) (map R.meaning new.items)) }
{
    let mut types = Vec::new(alloc);
    let mut renewed = Vec::with_capacity(alloc, objects.len())?;
    for object in objects {
        let state = object.state();
        renewed.push_reserved(renewed_object(alloc, &mut types, object, state)?);
    }
    Ok(renewed)
}

/// An object for each, as it is made of its type at its committed state, and shares it as those do.
///
/// # Errors
///
/// Memory was refused.
pub(crate) fn committed_objects<R: Renew>(
    alloc: Global,
    objects: &Vec<R>,
) -> Result<Vec<R>, AllocError>
    requires { AreBeginStates committed_of (map R.meaning objects.now.items) }
    ensures { IfOk result (λ new. AreRenewed committed_of (map R.meaning objects.now.items) (map R.meaning new.items)) }
{
    let mut types = Vec::new(alloc);
    let mut renewed = Vec::with_capacity(alloc, objects.len())?;
    for object in objects {
        let state = object.committed();
        renewed.push_reserved(renewed_object(alloc, &mut types, object, state)?);
    }
    Ok(renewed)
}

/// An object as it is made of this one's type at this state.
fn renewed_object<R: Renew>(
    alloc: Global,
    types: &mut Vec<Arc<CheckedType>>,
    object: &R,
    state: u32,
) -> Result<R, AllocError>
    requires { IsInside (R.meaning object.now).checked state }
    ensures { IfOk result (λ new. IsRenewedAt (R.meaning object.now) state (R.meaning new)) }
{
    let shared = shared_at(alloc, types, object.checked(), state)?;
    Ok(object.renewed(alloc, shared))
}

/// The most types, each at a state, that are looked through for one more object.
const MOST_KNOWN: usize = 256;

/// The type, beginning at this state, where it may: one of these, or else one that is made, and is the last of
/// them then where there is room.
fn shared_at(
    alloc: Global,
    types: &mut Vec<Arc<CheckedType>>,
    checked: &CheckedType,
    state: u32,
) -> Result<Arc<CheckedType>, AllocError>
    requires { IsInside checked.now state }
    ensures { IfOk result (λ shared. shared.value ≡ checked_at checked.now state) }
{
    if let Some(shared) = found_at(types, checked, state) {
        return Ok(Arc::clone(shared)?);
    }
    let made = checked.at(alloc, state)?.unwrap();
    let shared = Arc::new(alloc, made)?;
    if types.len() < MOST_KNOWN {
        types.push(Arc::clone(&shared)?)?;
    }
    Ok(shared)
}

/// The first of these that is this type, beginning at this state.
fn found_at<'a>(
    types: &'a [Arc<CheckedType>],
    checked: &CheckedType,
    state: u32,
) -> Option<&'a Arc<CheckedType>>
    ensures { IfSome result (λ shared. shared.now.value ≡ checked_at checked.now state) }
{
    types.iter().find(|shared| shared.is_at(checked, state))
}
