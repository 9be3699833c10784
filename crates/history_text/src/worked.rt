//! Worked examples of the definitions: each function does nothing, and its contract is the example.
#![tactic(auto)]

ghost use Rattle.std.specs.Prelude.{◌≡◌, [], ◌∷◌, ◌++◌, take, drop, map, replicate, Some, None, codes};
ghost use Rattle.type_table.specs.declared.kind.Kind.TheVariants.{Undo, Intentions};
ghost use Rattle.line_text.specs.declared.fault.FaultKind.TheVariants.{UnknownWord, BadNumber, OutOfRange, OutOfOrder, Missing, AfterEnd};
ghost use Rattle.store_text.specs.declared.line.Line.TheVariants.{Objects, Object, End};
ghost use Rattle.store_text.specs.Said.{said_objects, entries_of};
ghost use Rattle.history_text.specs.Events.{event_in_line};
ghost use Rattle.history_text.specs.Canonical.{canonical_size, canonical_text};
ghost use Rattle.history_text.specs.Examples.{SaysEvents, RefusesHistory, ended, two_objects_text, history_lines, history_with, some_objects, some_events, sized_history_text, sized_history_lines, sized_history_with, text_of_one, text_of_two, far_objects, named_objects, named_history_text};

pub fn texts_say_their_lines()
    ensures history { SaysEvents two_objects_text history_lines }
    ensures spaced { SaysEvents
        (codes "# note" ∷ codes " object  undo 7" ∷ [] ∷ codes "end" ∷ codes "# kept 0 0" ∷ [])
        (Object Undo 7 None ∷ End ∷ []) }
{}

pub fn lines_say_their_history()
    ensures objects { said_objects history_lines ≡ some_objects }
    ensures events { map event_in_line (entries_of history_lines) ≡ some_events }
    ensures text { canonical_text some_objects some_events ≡ ended two_objects_text }
{}

pub fn faults_of_the_history()
    ensures limit_line { RefusesHistory (codes "max 20" ∷ two_objects_text) 1 UnknownWord }
    ensures no_object { RefusesHistory (drop 2 two_objects_text) 1 Missing }
    ensures high_file { RefusesHistory (history_with 1 (codes "object undo 256")) 2 OutOfRange }
    ensures high_worker { RefusesHistory (history_with 2 (codes "begin 256 0")) 3 OutOfRange }
    ensures high_transaction { RefusesHistory (history_with 2 (codes "begin 0 1000000")) 3 OutOfRange }
    ensures high_object { RefusesHistory (history_with 4 (codes "op 0 0 256 0")) 5 OutOfRange }
    ensures high_operation { RefusesHistory (history_with 4 (codes "op 0 0 1 64")) 5 OutOfRange }
    ensures high_amount { RefusesHistory (history_with 4 (codes "op 0 0 1 2 4294967296")) 5 OutOfRange }
    ensures long_amount { RefusesHistory (history_with 4 (codes "op 0 0 1 2 10000000000")) 5 BadNumber }
    ensures high_holder { RefusesHistory (history_with 5 (codes "busy 0 0 1 1 1000000")) 6 OutOfRange }
    ensures nothing_struck { RefusesHistory (history_with 7 (codes "rollback 0 0 0")) 8 OutOfRange }
    ensures leading_zero { RefusesHistory (history_with 6 (codes "none 0 0 0 00")) 7 BadNumber }
    ensures number_missing { RefusesHistory (history_with 5 (codes "busy 0 0 1 1")) 6 UnknownWord }
    ensures late_object { RefusesHistory (history_with 8 (codes "object undo 0")) 9 OutOfOrder }
    ensures no_end { RefusesHistory (take 11 two_objects_text) 12 Missing }
    ensures second_end { RefusesHistory (two_objects_text ++ codes "end" ∷ []) 13 AfterEnd }
{}

/// A text may say that it may have up to 65,536 objects, by its first line that has words.
pub fn texts_say_their_size()
    ensures sized { SaysEvents sized_history_text sized_history_lines }
    ensures one { SaysEvents text_of_one (Objects 1 ∷ Object Undo 0 None ∷ End ∷ []) }
    ensures most { SaysEvents
        (codes "objects 65536" ∷ codes "object undo 65535" ∷ codes "end" ∷ [])
        (Objects 65536 ∷ Object Undo 65535 None ∷ End ∷ []) }
{}

pub fn faults_of_the_size()
    ensures high_object { RefusesHistory (sized_history_with 3 (codes "op 0 0 300 1")) 4 OutOfRange }
    ensures high_file { RefusesHistory (sized_history_with 2 (codes "object undo 300")) 3 OutOfRange }
    ensures object_too_many { RefusesHistory text_of_two 3 OutOfRange }
    ensures no_size { RefusesHistory (sized_history_with 1 (codes "objects 0")) 2 OutOfRange }
    ensures high_size { RefusesHistory (sized_history_with 1 (codes "objects 65537")) 2 OutOfRange }
    ensures leading_zero { RefusesHistory (sized_history_with 1 (codes "objects 0300")) 2 BadNumber }
    ensures more_words { RefusesHistory (sized_history_with 1 (codes "objects 300 300")) 2 UnknownWord }
    ensures second_size { RefusesHistory (sized_history_with 2 (codes "objects 300")) 3 OutOfOrder }
    ensures late_size { RefusesHistory (history_with 1 (codes "objects 300")) 2 UnknownWord }
    ensures size_in_a_comment { RefusesHistory (sized_history_with 1 (codes "# objects 300")) 3 OutOfRange }
{}

/// The canonical text says how many objects it may have where there are more than 256, or a type's place is above 255.
pub fn sizes_are_said_where_they_are_needed()
    ensures few { canonical_size some_objects ≡ None }
    ensures most { canonical_size (replicate 256 (record { kind = Undo; file = 0; name = None })) ≡ None }
    ensures more { canonical_size (replicate 257 (record { kind = Undo; file = 0; name = None })) ≡ Some 257 }
    ensures far { canonical_size far_objects ≡ Some 257 }
    ensures text { canonical_text far_objects [] ≡ ended (codes "objects 257" ∷ codes "object undo 256" ∷ codes "object undo 0" ∷ codes "end" ∷ []) }
{}

/// The canonical text has names, and says how many objects it may have where there is one.
pub fn names_are_written()
    ensures size { canonical_size named_objects ≡ Some 2 }
    ensures text { canonical_text named_objects [] ≡ ended named_history_text }
    ensures read { SaysEvents named_history_text (Objects 2 ∷ Object Undo 0 None ∷ Object Intentions 1 (Some (codes "LH-455.A12")) ∷ End ∷ []) }
{}
