use number_types::NumberCall;
use type_table::Name;

/// What a line of a number file says.
#[derive(Clone, Copy)]
pub enum NumberLine {
    /// `number NAME`
    Called(Name),
    /// `max M`
    Max(u32),
    /// `initial S`
    Initial(u32),
    /// a line of a call
    Call(NumberCall),
    /// a line whose number is above 4,294,967,295, and so out of its range
    TooLarge(Counted),
    /// `end`
    End,
}

/// What the number of a line is.
#[derive(Clone, Copy)]
pub enum Counted {
    /// `max M`
    Max,
    /// `initial S`
    Initial,
    /// `take K`
    Take,
    /// `give K`
    Give,
    /// `atleast K`
    AtLeast,
}
