//! Laws of the canonical text of a number: each is a function that does nothing, whose contract is the
//! law. It calls the laws on which it depends.

ghost use Rattle.number_text.specs.Canonical.{CanonicalIsRead, WrittenIsRead};

use crate::number_line::NumberLine;
use line_text::{canonical_reads_again, names_are_words};

/// The canonical text of a number has a value, and its lines describe this number.
pub fn canonical_is_read()
    ensures { CanonicalIsRead }
{
    canonical_reads_again::<NumberLine>();
    names_are_words();
}

/// What is read from the canonical text of a number is that number.
pub fn written_is_read()
    ensures { WrittenIsRead }
{
    canonical_is_read();
}
