//! What holds of every grammar, for proofs of the crates above: each law is a function that does nothing.
ghost use Rattle.std.specs.Prelude.{ℕ, ◌^◌, ◌<◌, List};
ghost use Rattle.line_text.specs.Rules.{Rules};
ghost use Rattle.line_text.specs.Outcome.{IsOutcome};
ghost use Rattle.line_text.specs.Accepted.{IsAccepted, AreInOrder};
ghost use Rattle.line_text.specs.Spelling.{IsReadAgain, NameIsWord, NumberIsReadAgain};
ghost use Rattle.line_text.specs.Comments.{AreSkipped};

/// A text's fault is that of the first refused line, by the first test that refuses it from the
/// lines before, or that `end` hasn't come; it has a value exactly where no line is refused and
/// there is an `end`.
pub fn outcome_by_lines<Item>()
    ensures { (g : Rules Item) (text : List ℕ) → IsOutcome g text }
{}

/// How the items of an accepted text follow each other: each passed its tests after those before
/// it, ranks never fall, keys rise within a section, each needed section is there, and the last item
/// alone is `end`.
pub fn accepted_in_order<Item>()
    ensures { (g : Rules Item) (items : List Item) → IsAccepted g items → AreInOrder g items }
{}

/// The canonical text of items that may follow each other so, where the words of each item say it,
/// is read as these items.
pub fn canonical_reads_again<Item>()
    ensures { (g : Rules Item) (words : Item → List (List ℕ)) (items : List Item) → IsReadAgain g words items }
{}

/// Comments say nothing, wherever they are: lines are read as those of them that aren't comments.
pub fn comments_are_skipped<Item>()
    ensures { (g : Rules Item) (lines : List (List ℕ)) → AreSkipped g lines }
{}

/// The decimal text of a number below 10,000,000, as `Display` writes it, is a word of a line and is
/// read as this number.
pub fn numbers_read_again()
    ensures { (n : ℕ) → n < 10 ^ 7 → NumberIsReadAgain n }
{}

/// A name is a word of a line, of at most 32 bytes.
pub fn names_are_words()
    ensures { (w : List ℕ) → NameIsWord w }
{}
