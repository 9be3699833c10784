//! Worked examples of the definitions: each function does nothing, and its contract is the example.
#![tactic(auto)]

ghost use Rattle.std.specs.Prelude.{◌≡◌, [], ◌∷◌, ◌++◌, take, Some, None, codes};
ghost use Rattle.type_table.specs.declared.kind.Kind.TheVariants.{Undo, Intentions};
ghost use Rattle.line_text.specs.declared.fault.FaultKind.TheVariants.{UnknownWord, BadNumber, OutOfRange, OutOfOrder, Missing, AfterEnd, TwiceName};
ghost use Rattle.store_text.specs.declared.line.Line.TheVariants.{Objects, Max, Object, End};
ghost use Rattle.store_text.specs.Said.{said_objects, entries_of};
ghost use Rattle.serial_order.specs.declared.command.Command.TheVariants.{Begin, Call, Commit, Abort, Rollback};
ghost use Rattle.script_text.specs.Examples.{SaysCommands, RefusesScript, script_text, script_lines, script_with, sized_script_text, sized_script_lines, sized_script_with, named_script_text, named_script_lines, named_script_with};

pub fn texts_say_their_lines()
    ensures script { SaysCommands script_text script_lines }
    ensures sized { SaysCommands sized_script_text sized_script_lines }
    ensures spaced { SaysCommands
        (codes "# note" ∷ codes " max  2" ∷ [] ∷ codes "object undo 255" ∷ codes "end" ∷ codes "#" ∷ [])
        (Max 2 ∷ Object Undo 255 None ∷ End ∷ []) }
{}

pub fn lines_say_their_script()
    ensures objects { said_objects script_lines ≡ record { kind = Undo; file = 0; name = None } ∷ record { kind = Intentions; file = 1; name = None } ∷ [] }
    ensures commands { entries_of script_lines ≡ Begin ∷ Call 0 1 (codes "inc:1") ∷ Rollback 0 1 ∷ Commit 0 ∷ Abort 7 ∷ [] }
{}

pub fn faults_of_the_script()
    ensures low_limit { RefusesScript (script_with 0 (codes "max 1")) 1 OutOfRange }
    ensures high_limit { RefusesScript (script_with 0 (codes "max 1000001")) 1 OutOfRange }
    ensures no_limit { RefusesScript (script_with 0 (codes "# max 20")) 2 Missing }
    ensures second_limit { RefusesScript (script_with 1 (codes "max 20")) 2 OutOfOrder }
    ensures unknown_kind { RefusesScript (script_with 2 (codes "object redo 01")) 3 UnknownWord }
    ensures high_file { RefusesScript (script_with 2 (codes "object undo 256")) 3 OutOfRange }
    ensures late_object { RefusesScript (script_with 5 (codes "object undo 0")) 6 OutOfOrder }
    ensures name_before_number { RefusesScript (script_with 4 (codes "call 00 1 INC")) 5 UnknownWord }
    ensures leading_zero { RefusesScript (script_with 4 (codes "call 00 1 inc:1")) 5 BadNumber }
    ensures number_missing { RefusesScript (script_with 5 (codes "rollback 0")) 6 UnknownWord }
    ensures event_line { RefusesScript (script_with 3 (codes "begin 0 0")) 4 UnknownWord }
    ensures no_object { RefusesScript (codes "max 20" ∷ codes "begin" ∷ []) 2 Missing }
    ensures no_end { RefusesScript (take 8 script_text) 9 Missing }
    ensures second_end { RefusesScript (script_text ++ codes "end" ∷ []) 10 AfterEnd }
{}

pub fn faults_of_the_size()
    ensures high_file { RefusesScript (sized_script_with 2 (codes "object undo 300")) 3 OutOfRange }
    ensures no_size { RefusesScript (sized_script_with 0 (codes "objects 0")) 1 OutOfRange }
    ensures high_size { RefusesScript (sized_script_with 0 (codes "objects 65537")) 1 OutOfRange }
    ensures no_limit { RefusesScript (sized_script_with 1 (codes "# max 20")) 3 Missing }
    ensures late_size { RefusesScript (script_with 1 (codes "objects 300")) 2 UnknownWord }
{}

/// In a text that says how many objects it may have, an object may have a name, which no other has.
pub fn objects_may_have_names()
    ensures named { SaysCommands named_script_text named_script_lines }
    ensures same_end { SaysCommands
        (codes "objects 2" ∷ codes "max 2" ∷ codes "object undo 0 a" ∷ codes "object undo 0 A" ∷ codes "end" ∷ [])
        (Objects 2 ∷ Max 2 ∷ Object Undo 0 (Some (codes "a")) ∷ Object Undo 0 (Some (codes "A")) ∷ End ∷ []) }
{}

pub fn faults_of_names()
    ensures no_size { RefusesScript (script_with 1 (codes "object undo 0 A12")) 2 UnknownWord }
    ensures no_name { RefusesScript (named_script_with 2 (codes "object undo 0 A,12")) 3 UnknownWord }
    ensures two_names { RefusesScript (named_script_with 2 (codes "object undo 0 A12 B12")) 3 UnknownWord }
    ensures name_before_number { RefusesScript (named_script_with 2 (codes "object undo 00 A,12")) 3 UnknownWord }
    ensures leading_zero { RefusesScript (named_script_with 2 (codes "object undo 00 A12")) 3 BadNumber }
    ensures twice { RefusesScript (named_script_with 4 (codes "object escrow 1 A12")) 5 TwiceName }
    ensures later { RefusesScript (named_script_with 5 (codes "object undo 0 room:7/b")) 6 TwiceName }
    ensures range_before_twice { RefusesScript (named_script_with 5 (codes "object undo 4 A12")) 6 OutOfRange }
{}
