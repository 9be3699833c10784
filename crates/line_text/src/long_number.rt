//! Numbers of up to ten digits.

ghost use Rattle.std.specs.Prelude.{◌≡◌, map};
ghost use Rattle.line_text.specs.LongNumbers.{long_number_at};

use crate::fault::FaultKind;
use crate::shapes::word;
use decimals::long_number_of;

/// The number at a place of a line, where the keyword is at place 0; else `BadNumber`.
#[tactic(auto, unfolding(crate::specs::LongNumbers::long_number_at))]
pub fn long_number_at(words: &[&[u8]], place: usize) -> Result<u64, FaultKind>
    ensures { result ≡ long_number_at (map (λ w. w.now) words.now) place }
{
    match long_number_of(word(words, place)) {
        Some(number) => Ok(number),
        None => Err(FaultKind::BadNumber),
    }
}
