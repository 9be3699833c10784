use type_table::{Name, Op, TableKind};

/// What a line of a type file says.
#[derive(Clone, Copy, PartialEq, Eq)]
pub enum TypeLine {
    /// `type NAME`
    TypeName(Name),
    /// `states N`
    States(u32),
    /// `initial S`
    Initial(u32),
    /// `op CALL REPLY`
    Operation(Op),
    /// `step S K T`
    Step { s: u32, k: u32, t: u32 },
    /// `reach S`
    Reach(u32),
    /// `equi S T`
    Equi { s: u32, t: u32 },
    /// `conflict KIND P Q`
    Conflict { kind: TableKind, p: u32, q: u32 },
    /// `end`
    End,
}
