//! Laws of the canonical text: each is a function that does nothing, whose contract is the law. It
//! calls the laws on which it depends.

ghost use Rattle.type_text.specs.Canonical.{CanonicalIsRead, LinesTellTheFile, WrittenIsRead};

use crate::type_line::TypeLine;
use equi_cert::same_pairs;
use line_text::{canonical_reads_again, names_are_words, numbers_read_again};
use type_table::steps_within;

/// The canonical text of a file has a value, and its lines describe this file.
pub fn canonical_is_read()
    ensures { CanonicalIsRead }
{
    canonical_reads_again::<TypeLine>();
    numbers_read_again();
    names_are_words();
    steps_within();
}

/// Two files that the same lines describe have the same parts.
pub fn lines_tell_the_file()
    ensures { LinesTellTheFile }
{
    same_pairs();
}

/// What is read from the canonical text of a file is that file.
pub fn written_is_read()
    ensures { WrittenIsRead }
{
    canonical_is_read();
    lines_tell_the_file();
}
