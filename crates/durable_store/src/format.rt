//! The versions of the tables of a store.

ghost use Rattle.std.specs.Prelude.{IfErr, OnOk};
ghost use Rattle.durable_store.specs.Created.{IsReadFormat};
ghost use Rattle.durable_store.specs.Recovered.{IsStrayError};

use crate::open_error::OpenError;
use journal::{FORMAT, FileContents, JournalError};

/// The first version. It and those after it are read as the newest: in the first no type is a number, in the second
/// no operation has an amount, in the third no object has a name, in the fourth each event has a row of its own, in the
/// fifth no transaction has a key, in the sixth none is prepared, and in the seventh no outcome has a number.
const FIRST_FORMAT: u32 = 1;

/// That a file is of one of these versions.
///
/// # Errors
///
/// `Journal` with `Foreign`: it is of another one.
pub(crate) fn check_format(said: &FileContents) -> Result<(), OpenError>
    ensures format { OnOk result (IsReadFormat said.now.header.format) }
    ensures strays { IfErr result (λ e. IsStrayError e → ⊥) }
{
    if FIRST_FORMAT <= said.header.format && said.header.format <= FORMAT {
        Ok(())
    } else {
        Err(OpenError::Journal(JournalError::Foreign))
    }
}
