//! Laws, called: the generic ones at one type.

use line_text::{
    accepted_in_order, canonical_reads_again, names_are_words, numbers_read_again, outcome_by_lines,
};
use number_text::{canonical_is_read, written_is_read};
use number_types::{number_has_table, number_tells_bounds, numbers_answer};
use table_checker::{one_answer, strong_yes_covers, yes_covers};

#[test]
fn laws_are_called() {
    outcome_by_lines::<u32>();
    accepted_in_order::<u32>();
    canonical_reads_again::<u32>();
    numbers_read_again();
    names_are_words();
    canonical_is_read();
    written_is_read();
    number_has_table();
    number_tells_bounds();
    numbers_answer();
    yes_covers();
    strong_yes_covers();
    one_answer();
}
