//! The line machine of the text formats: lines, words, numbers, the tests of a line in their order,
//! and one reader for every grammar of lines.
#![tactic(auto)]

mod cut;
mod fault;
mod grammar;
mod judge;
mod laws;
mod line;
mod long_number;
mod more;
mod plain;
mod read;
mod read_so_far;
mod section;
mod shapes;

pub use fault::{FaultKind, TextFault};
pub use grammar::Grammar;
pub use laws::{
    accepted_in_order, canonical_reads_again, comments_are_skipped, names_are_words,
    numbers_read_again, outcome_by_lines,
};
pub use long_number::long_number_at;
pub use plain::{bytes_before, number_before};
pub use read::read_items;
pub use section::Section;
pub use shapes::{exactly, is_key, kind_at, name_at, number_at, table_kind_at, word};

pub mod worked;
