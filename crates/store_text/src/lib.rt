//! What the texts about a store's objects have in common: a limit, the objects, entries of the
//! text's own, and `end`; one grammar and one reader for all of them.
#![tactic(auto)]

mod entries;
mod grammar;
mod kept;
mod line;
mod object_lines;
mod parts;
mod read;
mod sections;
mod size;

pub use entries::Entries;
pub use grammar::StoreGrammar;
pub use kept::KeptParts;
pub use line::{Line, ObjectLine};
pub use parts::Parts;
pub use read::read_parts;
pub use size::{MOST_SIZE, may_have, text_size};
