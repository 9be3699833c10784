ghost use Rattle.std.specs.Prelude.{◌≡◌, IfOk};
ghost use Rattle.store_text.specs.Parts.{ReadsStoreText, IsPartsOf, AreFit};
ghost use Rattle.store_text.specs.Size.{text_size};

use crate::entries::Entries;
use crate::grammar::StoreGrammar;
use crate::line::Line;
use crate::parts::Parts;
use crate::size::text_size;
use line_text::{TextFault, accepted_in_order, outcome_by_lines, read_items};
use std::alloc::Global;

/// The parts of a text, or its first fault.
///
/// `NoMemory` comes in place of either where memory was refused; its line is the one that was being
/// read.
pub fn read_parts<E: Entries + Copy>(
    alloc: Global,
    entries: E,
    text: &[u8],
) -> Result<Parts<E::Kept>, TextFault>
    ensures exact { ReadsStoreText (E.body entries) (IsPartsOf (E.body entries) E.said) result text.now }
    ensures fit { IfOk result (AreFit (E.body entries) E.said) }
    ensures size { IfOk result (λ parts. parts.size ≡ text_size text.now) }
{
    accepted_in_order::<Line<E::Entry>>();
    outcome_by_lines::<Line<E::Entry>>();
    let grammar = StoreGrammar::new(entries, text_size(text));
    let kept = read_items(alloc, &grammar, text)?;
    Ok(kept.into_parts())
}
