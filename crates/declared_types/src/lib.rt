//! What a declared type is: a table with a set of states, a relation and conflict tables, or a number.
#![tactic(auto)]

mod declared_type;
mod laws;
mod type_file;
mod whole_set;

pub use declared_type::{Declaration, DeclaredType};
pub use laws::parts_tell_the_file;
pub use type_file::TypeFile;
pub use whole_set::is_whole;
