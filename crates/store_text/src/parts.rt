use crate::line::ObjectLine;

/// What a text says: how many objects it may have, the limit of its `max` line, its objects, and what is kept
/// of its entries.
#[derive(Drop)]
pub struct Parts<Kept: Drop> {
    /// `None` in a text that has no `objects` line.
    pub size: Option<u32>,
    /// 0 in a text that has no `max` line.
    pub max: u32,
    pub objects: Vec<ObjectLine>,
    pub entries: Kept,
}
