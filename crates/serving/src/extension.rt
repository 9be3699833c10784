use crate::additions::Added;
use type_table::Name;

/// Objects that wait to be added to a store, and the tag of the line that asked for them.
#[derive(Drop)]
pub struct Extension {
    pub tag: Option<Name>,
    pub added: Added,
}
