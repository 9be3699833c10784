//! The files that a command reads: one reader for every format of text.

ghost use Rattle.std.specs.Prelude.{◌≡◌, ◌≢◌, ℕ, List, IfOk, IfErr, IfSome};
ghost use Rattle.line_text.specs.declared.fault.FaultKind.TheVariants.{NoMemory};
ghost use Rattle.command_files.specs.Answers.{IsEarlyFault};

use crate::fault::Fault;
use crate::source::{Source, SourceFault};
use line_text::{FaultKind, TextFault};
use std::alloc::Global;

/// A format of texts.
pub trait Format {
    /// What a text of this format describes.
    type Value: Drop;

    /// A text describes a value.
    ghost describes: { Self → List ℕ → Self.Value → Type 0 };

    /// A value that was read, whatever the text was: its numbers and counts are in their ranges.
    ghost is_fit: { Self → Self.Value → Type 0 };

    /// A text has a fault.
    ghost is_faulty: { Self → List ℕ → Type 0 };

    /// The value that a text describes.
    ///
    /// # Errors
    ///
    /// The text's first fault, or memory was refused.
    fn read(&self, alloc: Global, text: &[u8]) -> Result<Self::Value, TextFault>
        ensures read { IfOk result (describes self.now text.now) }
        ensures fit { IfOk result (is_fit self.now) }
        ensures refused { IfErr result (λ fault. fault.kind ≢ NoMemory → is_faulty self.now text.now) };
}

/// What the text at a path describes.
///
/// # Errors
///
/// The fault of the text, that it can't be read, or that memory was refused.
pub fn read_file<'a, F: Format, S: Source>(
    alloc: Global,
    format: &F,
    path: &'a str,
    source: &mut S,
) -> Result<F::Value, Fault<'a>>
    ensures reads { IfOk result (λ value. IfSome (S.holds source.old path.now) (λ text. F.describes format.now text value)) }
    ensures fit { IfOk result (F.is_fit format.now) }
    ensures refused { IfErr result (IsEarlyFault (IfSome (S.holds source.old path.now) (F.is_faulty format.now))) }
    ensures kept { (other : List ℕ) → S.holds source.new other ≡ S.holds source.old other }
{
    match source.bytes(path) {
        Ok(text) => match format.read(alloc, &text) {
            Ok(value) => Ok(value),
            Err(fault) if fault.kind == FaultKind::NoMemory => Err(Fault::NoMemory),
            Err(fault) => Err(Fault::Text { path, fault }),
        },
        Err(SourceFault::CannotRead) => Err(Fault::CannotRead { path }),
        Err(SourceFault::NoMemory) => Err(Fault::NoMemory),
    }
}
