//! Laws of texts that are written one after another: each is a function that does nothing, whose
//! contract is the law.

ghost use Rattle.outputs.specs.Out.{PutsItems, PutsJoin, PutsStop};

/// Two texts that are written one after the other are written as one, and where the first one stops
/// with an error, so does the whole.
pub fn texts_in_turn()
    ensures joined { PutsJoin }
    ensures stopped { PutsStop }
{}

/// Where the texts of some items are written one after another, and the output stops at one of them,
/// the text of all of them has stopped.
pub fn items_in_turn<X>()
    ensures { PutsItems X }
{}
