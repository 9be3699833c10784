//! Worked examples of the definitions: each function does nothing, and its contract is the example.

ghost use Rattle.line_text.specs.Example.{WorkedTexts};

/// The outcome of worked texts.
pub fn worked_texts()
    ensures { WorkedTexts }
{}
