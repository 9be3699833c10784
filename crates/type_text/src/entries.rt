use type_table::TableKind;

/// A section of a type file's text whose lines are the entries of a grid.
#[derive(Clone, Copy, Debug, PartialEq, Eq)]
pub enum Entries {
    /// `step` lines, by state and operation.
    Steps,
    /// `reach` lines, by state.
    Members,
    /// `equi` lines, by the pair of states.
    Pairs,
    /// `conflict` lines of a kind, by requested and held operation.
    Conflicts(TableKind),
}
