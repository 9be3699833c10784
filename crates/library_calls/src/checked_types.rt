//! Types that the checker accepts.

ghost use Rattle.std.specs.Prelude.{◌≡◌, ◌⊎◌, IfErr, IfOk};
ghost use Rattle.library_calls.specs.Codes.{number};
ghost use Rattle.library_calls.specs.Types.{IsFileRefused, IsCheckedType};

use crate::code::Code;
use crate::words::{ColockFault, refusal_words};
use declared_types::TypeFile;
use std::alloc::Global;
use std::sync::Arc;
use table_checker::{CheckedType, Kind, check};

/// The type of a file, where the checker accepts it for a kind.
///
/// # Errors
///
/// `Refused` and the first reason, or `NoMemory`.
pub fn checked_type(
    alloc: Global,
    kind: Kind,
    file: TypeFile,
    fault: &mut ColockFault,
) -> Result<Arc<CheckedType>, Code>
    ensures accepted { IfOk result (λ a. IsCheckedType kind file a.value × (fault.new ≡ fault.old)) }
    ensures refused { IfErr result (λ code. ((code ≡ Code.NoMemory) × (fault.new ≡ fault.old)) ⊎ IsFileRefused kind file (number code) fault.new) }
{
    match check(file, kind) {
        Ok(checked) => match Arc::new(alloc, checked) {
            Ok(shared) => Ok(shared),
            Err(_) => Err(Code::NoMemory),
        },
        Err((_file, why)) => {
            *fault = refusal_words(why);
            Err(Code::Refused)
        }
    }
}
