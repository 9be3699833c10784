/// A section of a text: the lines of one rank.
#[derive(Clone, Copy, Debug, PartialEq, Eq)]
pub struct Section {
    /// A second line of it is out of order.
    pub is_single: bool,
    /// No line of a higher rank may come without one of it.
    pub is_needed: bool,
    /// The most lines that it may have; `None` where any number may come.
    pub most: Option<usize>,
}
