//! Worked examples of the definitions: each function does nothing, and its contract is the example.
#![tactic(auto)]

ghost use Rattle.std.specs.Prelude.{[], ◌∷◌, ◌++◌, take, replicate, codes};
ghost use Rattle.line_text.specs.declared.fault.FaultKind.TheVariants.{LineTooLong, UnknownWord, BadNumber, OutOfRange, OutOfOrder, Missing, AfterEnd, TwiceOp};
ghost use Rattle.type_text.specs.declared.type_line.TypeLine.TheVariants.{TypeName, States, Initial, Operation, Step, End};
ghost use Rattle.type_table.specs.Examples.{ok_op};
ghost use Rattle.type_text.specs.Examples.{Says, Refuses, counter_text, counter_lines, counter_with};

pub fn texts_say_their_lines()
    ensures counter { Says counter_text counter_lines }
    ensures spaced { Says
        (codes "# note" ∷ codes " type  p" ∷ [] ∷ codes "states 1" ∷ codes "initial 0" ∷ codes "op p ok " ∷ codes "step 0 0 0" ∷ codes "end" ∷ codes "#" ∷ [])
        (TypeName (codes "p") ∷ States 1 ∷ Initial 0 ∷ Operation (ok_op (codes "p")) ∷ Step 0 0 0 ∷ End ∷ []) }
{}

pub fn faults_of_the_counter()
    ensures long_comment { Refuses (counter_with 0 (replicate 201 35)) 1 LineTooLong }
    ensures unknown_kind { Refuses (counter_with 9 (codes "conflict redo 0 01")) 10 UnknownWord }
    ensures leading_zero { Refuses (counter_with 5 (codes "step 0 0 01")) 6 BadNumber }
    ensures no_states { Refuses (counter_with 1 (codes "states 0")) 2 OutOfRange }
    ensures initial_past { Refuses (counter_with 2 (codes "initial 3")) 3 OutOfRange }
    ensures next_past { Refuses (counter_with 5 (codes "step 0 0 3")) 6 OutOfRange }
    ensures operation_past { Refuses (counter_with 5 (codes "step 0 2 1")) 6 OutOfRange }
    ensures repeated_step { Refuses (counter_with 6 (codes "step 0 0 1")) 7 OutOfOrder }
    ensures kinds_exchanged { Refuses (counter_with 9 (codes "conflict intentions 0 1")) 11 OutOfOrder }
    ensures no_operation { Refuses (take 3 counter_text ++ codes "step 0 0 1" ∷ []) 4 Missing }
    ensures no_end { Refuses (take 13 counter_text) 14 Missing }
    ensures second_end { Refuses (counter_text ++ codes "end" ∷ []) 15 AfterEnd }
    ensures twin { Refuses (counter_with 4 (codes "op inc:1 ok")) 5 TwiceOp }
{}
