use object_name::ObjectName;
use type_table::Kind;

/// What a line says of a text about a store's objects.
#[derive(Clone, Copy)]
pub enum Line<Entry> {
    /// `objects N`: how many objects the text may have.
    Objects(u32),
    /// `max N`: the most events of the store's history.
    Max(u32),
    /// `object KIND F` or `object KIND F NAME`: the next object, of the type in file F.
    Object {
        kind: Kind,
        file: u32,
        name: Option<ObjectName>,
    },
    /// A line of the text's own section.
    Entry(Entry),
    /// `end`
    End,
}

/// An object of a store: its kind of recovery, the place of its type's file among those handed in, and its
/// name, if it has one.
#[derive(Clone, Copy, PartialEq, Eq)]
pub struct ObjectLine {
    pub kind: Kind,
    pub file: u16,
    pub name: Option<ObjectName>,
}
