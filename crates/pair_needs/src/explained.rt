ghost use Rattle.std.specs.Prelude.{◌≡◌};
ghost use Rattle.pair_needs.specs.Explained.{is_to_mend};

use crate::need::Need;
use crate::witness::Witness;

/// What is said of a pair of operations.
#[derive(Drop)]
pub struct Explained {
    /// The requested operation.
    pub requested: u8,
    /// The held one.
    pub held: u8,
    /// Whether the pair is in the file's conflict table.
    pub listed: bool,
    pub need: Need,
    /// How it fails, where some run shows it.
    pub witness: Option<Witness>,
    /// The pairs of states that the file's relation lacks, where the pair is outside the table and fails
    /// by the file alone; ascending.
    pub lacking: Vec<(u16, u16)>,
    /// Whether, where that is so, it fails at a state to which no list leads.
    pub too_large: bool,
}

impl Explained {
    /// Whether the file is to be mended for the pair: it is outside the table, and fails by the file alone.
    pub fn is_to_mend(&self) -> bool
        ensures { result ≡ is_to_mend self.now }
    {
        !self.listed && matches!(self.need, Need::File)
    }
}

/// What is said of a requested operation with each held one.
#[derive(Drop)]
pub struct Row {
    pub requested: u8,
    pub pairs: Vec<Explained>,
}
