//! Worked examples of the definitions: each function does nothing, and its contract is the example.
#![tactic(auto)]

ghost use Rattle.std.specs.Prelude.{◌≡◌, [], ◌∷◌, Some, codes};
ghost use Rattle.type_table.specs.Examples.{counter_table, one_way};
ghost use Rattle.script_text.specs.declared.script.Script.{Script as ScriptValue};
ghost use Rattle.script_text.specs.Examples.{ended, script_text};
ghost use Rattle.command_files.specs.Examples.{endless_bytes};
ghost use Rattle.object_types.specs.Examples.{two_types, line_in_place};
ghost use Rattle.store_files.specs.Lines.{refused_object_line};
ghost use Rattle.store_files.specs.Types.{AreTablesOf, IsFirstFaultyDeclaration};
ghost use Rattle.store_files.specs.Scripts.{DescribesScript, IsFaultyScript};
ghost use Rattle.store_files.specs.Examples.{HasScript, endless_script, everywhere, script_objects, script_commands};

use command_files::worked::a_text_with_a_fault;
use script_text::worked::{faults_of_the_script, lines_say_their_script, texts_say_their_lines};
use table_checker::CheckRefusal;

/// The line of an object whose type isn't accepted has its place, and the line of the reason.
pub fn line_of_an_object()
    ensures { refused_object_line 12 (CheckRefusal.NotCommuting 1 0 2) ≡ codes "# object 12 no NotCommuting 1 0 2\n" }
{}

/// Objects have the tables of the types at their places.
pub fn objects_have_their_tables()
    ensures tables { AreTablesOf two_types (line_in_place 1 ∷ line_in_place 0 ∷ []) (one_way ∷ counter_table ∷ []) }
    ensures exchanged { AreTablesOf two_types (line_in_place 1 ∷ line_in_place 0 ∷ []) (counter_table ∷ one_way ∷ []) → ⊥ }
    ensures fewer { AreTablesOf two_types (line_in_place 1 ∷ line_in_place 0 ∷ []) (one_way ∷ []) → ⊥ }
{}

/// The first of two types has a fault. None of no types has one.
pub fn the_first_type_has_the_fault()
    ensures first { IsFirstFaultyDeclaration (everywhere endless_bytes) (codes "a" ∷ codes "b" ∷ []) }
    ensures none { IsFirstFaultyDeclaration (everywhere endless_bytes) [] → ⊥ }
{
    a_text_with_a_fault();
}

/// A text describes its script, and without its `end` it has a fault.
pub fn a_text_describes_its_script()
    ensures described { (s : ScriptValue) → HasScript 20 script_objects script_commands s → DescribesScript (ended script_text) s }
    ensures limit { (s : ScriptValue) → s.max ≡ 21 → DescribesScript (ended script_text) s → ⊥ }
    ensures size { (s : ScriptValue) → s.size ≡ Some 256 → DescribesScript (ended script_text) s → ⊥ }
    ensures faultless { IsFaultyScript (ended script_text) → ⊥ }
    ensures faulty { IsFaultyScript endless_script }
{
    texts_say_their_lines();
    lines_say_their_script();
    faults_of_the_script();
}
