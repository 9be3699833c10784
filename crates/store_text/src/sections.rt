//! The sections of a text about a store's objects.

ghost use Rattle.std.specs.Prelude.{◌≡◌, ◌≤◌, false, true, IfSome};
ghost use Rattle.store_text.specs.Body.{has_size, object_lines, one_line_if, sections};
ghost use Rattle.store_text.specs.Size.{may_have, most_size, IsSize};

use crate::size::may_have;
use line_text::Section;
use type_table::MOST_EVENTS;

const ENTRY_LINES: Section = Section {
    is_single: false,
    is_needed: false,
    most: Some(MOST_EVENTS as usize),
};

/// The sections by rank of a text that says this of the number of its objects.
#[derive(Clone, Copy)]
pub struct Sections {
    /// What the text says.
    pub size: Option<u32>,
    /// How many objects it may have.
    pub objects: u32,
    /// Those of a text that has a `max` line.
    pub with_max: [Section; 5],
    /// And of one without.
    pub without_max: [Section; 5],
    ghost few: { objects ≤ most_size },
    ghost may_have: { objects ≡ may_have size },
    ghost with_max_are: { with_max ≡ sections true size },
    ghost without_max_are: { without_max ≡ sections false size },
}

impl Sections {
    pub fn new(size: Option<u32>) -> Sections
        requires { IfSome size IsSize }
        ensures { result.size ≡ size }
    {
        let objects = may_have(size);
        let sizes = one_line_if(size.is_some());
        let lines = object_lines(objects);
        let end = one_line_if(true);
        Sections {
            size,
            objects,
            with_max: [sizes, one_line_if(true), lines, ENTRY_LINES, end],
            without_max: [sizes, one_line_if(false), lines, ENTRY_LINES, end],
        }
    }
}

/// The section of a line that some texts have.
fn one_line_if(is_there: bool) -> Section
    ensures { result ≡ one_line_if is_there }
{
    if is_there {
        Section {
            is_single: true,
            is_needed: true,
            most: None,
        }
    } else {
        Section {
            is_single: true,
            is_needed: false,
            most: Some(0),
        }
    }
}

/// The section of the `object` lines.
fn object_lines(objects: u32) -> Section
    ensures { result ≡ object_lines objects }
{
    Section {
        is_single: false,
        is_needed: true,
        most: Some(objects as usize),
    }
}
