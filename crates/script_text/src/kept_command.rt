use type_table::Name;

/// What is kept of a command: of the name of its call, the position among the names.
#[derive(Clone, Copy)]
pub enum KeptCommand {
    /// `begin`
    Begin,
    /// `call T X NAME`
    Call { t: u32, x: u32, name: u32 },
    /// `commit T`
    Commit { t: u32 },
    /// `abort T`
    Abort { t: u32 },
    /// `rollback T N`
    Rollback { t: u32, n: u32 },
}

/// Commands as they are kept, in order, and the names of their calls.
#[derive(Clone, Copy)]
pub struct KeptCommands<'a> {
    pub commands: &'a [KeptCommand],
    pub names: &'a [Name],
}
