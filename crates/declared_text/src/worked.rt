//! Worked examples of the definitions: each function does nothing, and its contract is the example.
#![tactic(auto)]

ghost use Rattle.std.specs.Prelude.{◌≡◌, [], ◌∷◌, true, false, codes};
ghost use Rattle.line_text.specs.Comments.{lines_text};
ghost use Rattle.line_text.specs.Outcome.{fault_on};
ghost use Rattle.line_text.specs.declared.fault.FaultKind.TheVariants.{Missing};
ghost use Rattle.declared_types.specs.declared.type_file.TypeFile.{TypeFile as FileValue};
ghost use Rattle.declared_types.specs.declared.declared_type.Declaration.TheVariants.{Table, Number as Numbers};
ghost use Rattle.number_types.specs.Examples.{credit};
ghost use Rattle.declared_text.specs.Declared.{Declares, HasDeclaredFault, is_of_number};
ghost use Rattle.declared_text.specs.Examples.{commented_text, credit_bytes, endless_credit, noted_text};

use number_text::worked::{faults_of_the_credit, texts_say_their_lines};

/// The first word that isn't in a comment chooses the grammar.
pub fn the_first_word_chooses()
    ensures after_a_comment { is_of_number commented_text ≡ true }
    ensures in_a_comment { is_of_number noted_text ≡ false }
    ensures second_word { is_of_number (lines_text (codes "type number" ∷ [])) ≡ false }
    ensures longer_word { is_of_number (lines_text (codes "numbers credit" ∷ [])) ≡ false }
    ensures no_word { is_of_number (lines_text ([] ∷ codes "   " ∷ codes "#" ∷ [])) ≡ false }
    ensures no_byte { is_of_number [] ≡ false }
{}

/// The credit's text declares the credit and no table, and without its `end` it has a fault.
pub fn a_text_declares_the_credit()
    ensures declared { Declares credit_bytes (Numbers credit) }
    ensures no_table { (file : FileValue) → Declares credit_bytes (Table file) → ⊥ }
    ensures faulty { HasDeclaredFault endless_credit (fault_on 8 Missing) }
{
    texts_say_their_lines();
    faults_of_the_credit();
}
