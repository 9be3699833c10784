use type_table::Name;

/// What a caller asks of a store. A call names an object by its place and a call by its name.
#[derive(Clone, Copy)]
pub enum Command {
    /// A new transaction, whose number is the number of transactions before it.
    Begin,
    /// A call of transaction t at object x.
    Call { t: u32, x: u32, call: Name },
    /// The end of transaction t, whose operations are kept.
    Commit { t: u32 },
    /// The end of transaction t, whose operations are struck.
    Abort { t: u32 },
    /// Strikes the last n operations of transaction t.
    Rollback { t: u32, n: u32 },
}
