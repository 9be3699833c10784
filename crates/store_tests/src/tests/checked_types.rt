//! Checked types, for objects.

use number_text::read_number;
use std::alloc::Global;
use std::sync::Arc;
use table_checker::{CheckedType, check, check_number};
use type_table::Kind;
use type_text::read_type;

/// An object of a store: its kind of recovery, and the text of its type.
pub type Sort = (Kind, &'static str);

/// The number of this text.
fn number_of(alloc: Global, text: &str) -> Option<CheckedType> {
    let number = read_number(alloc, text.as_bytes()).ok()?;
    Some(check_number(number))
}

/// The type of this text, checked for this kind of recovery, where it is accepted.
pub fn checked_of(alloc: Global, text: &str, kind: Kind) -> Option<Arc<CheckedType>> {
    if kind == Kind::Escrow && text.starts_with("number ") {
        return Arc::new(alloc, number_of(alloc, text)?).ok();
    }
    let file = read_type(alloc, text.as_bytes()).ok()?;
    let checked = check(file, kind).ok()?;
    Arc::new(alloc, checked).ok()
}
