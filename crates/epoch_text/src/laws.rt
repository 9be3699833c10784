//! A law of lines of events: a function that does nothing, whose contract is the law.

ghost use Rattle.epoch_text.specs.EpochText.{LinesAreCanonical, TextIsCanonical};

/// The lines of events whose numbers are of 32 bits are those of the canonical text of a history that has them,
/// by worker 0. So the text with these lines is that text.
pub fn lines_are_canonical()
    ensures lines { LinesAreCanonical }
    ensures text { TextIsCanonical }
{}
