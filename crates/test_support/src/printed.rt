//! How values are printed.

use std::alloc::Global;
use std::fmt::{Debug, Display};
use std::test::Fail;

/// That each value is printed as the text after it. A failure says what was printed.
pub fn are_printed<T: Display>(alloc: Global, rows: &[(T, &str)]) -> Result<(), Fail> {
    for (value, wanted) in rows {
        let text = value.to_string(alloc)?;
        if text.as_str() != *wanted {
            return Err(Fail::new(text));
        }
    }
    Ok(())
}

/// The same with `{:?}`.
pub fn are_debugged<T: Debug>(alloc: Global, rows: &[(T, &str)]) -> Result<(), Fail> {
    for (value, wanted) in rows {
        let text = format!(in alloc; "{value:?}")?;
        if text.as_str() != *wanted {
            return Err(Fail::new(text));
        }
    }
    Ok(())
}
