//! Worked examples of the definitions: each function does nothing, and its contract is the example.
#![tactic(auto)]

ghost use Rattle.std.specs.Prelude.{◌≡◌, ◌∷◌, [], ◌++◌, take, codes};
ghost use Rattle.line_text.specs.declared.fault.FaultKind.TheVariants.{UnknownWord, BadNumber, OutOfRange, OutOfOrder, Missing, AfterEnd};
ghost use Rattle.number_types.specs.declared.number_call.NumberCall.TheVariants.{Take};
ghost use Rattle.number_text.specs.declared.number_line.NumberLine.TheVariants.{Called, Max, Initial, Call, End};
ghost use Rattle.number_text.specs.Canonical.{canonical_lines};
ghost use Rattle.number_text.specs.Examples.{Says, Refuses, credit_text, credit_lines, credit_with};
ghost use Rattle.number_types.specs.Examples.{credit};

pub fn texts_say_their_lines()
    ensures credit { Says credit_text credit_lines }
    ensures canonical { canonical_lines credit ≡ credit_lines }
    ensures spaced { Says
        (codes "# note" ∷ codes " number  p" ∷ [] ∷ codes "max 1" ∷ codes "initial 1" ∷ codes "take 1 " ∷ codes "end" ∷ codes "#" ∷ [])
        (Called (codes "p") ∷ Max 1 ∷ Initial 1 ∷ Call (Take 1) ∷ End ∷ []) }
{}

pub fn faults_of_the_credit()
    ensures two_words { Refuses (credit_with 5 (codes "take any 1")) 6 UnknownWord }
    ensures other_word { Refuses (credit_with 5 (codes "take some")) 6 BadNumber }
    ensures second_any { Refuses (credit_with 3 (codes "take any")) 5 OutOfOrder }
    ensures eleven_digits { Refuses (credit_with 1 (codes "max 10000000000")) 2 BadNumber }
    ensures large_max { Refuses (credit_with 1 (codes "max 4294967296")) 2 OutOfRange }
    ensures no_max { Refuses (credit_with 1 (codes "max 0")) 2 OutOfRange }
    ensures initial_past { Refuses (take 2 credit_text ++ codes "initial 4294967296" ∷ []) 3 OutOfRange }
    ensures no_amount { Refuses (credit_with 3 (codes "take 0")) 4 OutOfRange }
    ensures same_amount { Refuses (credit_with 4 (codes "take 5")) 5 OutOfOrder }
    ensures late_amount { Refuses (credit_with 6 (codes "take 9999999999")) 7 OutOfOrder }
    ensures no_initial { Refuses (take 2 credit_text ++ codes "take 9999999999" ∷ []) 3 Missing }
    ensures no_call { Refuses (take 3 credit_text ++ codes "end" ∷ []) 4 Missing }
    ensures no_end { Refuses (take 7 credit_text) 8 Missing }
    ensures second_end { Refuses (credit_text ++ codes "end" ∷ []) 9 AfterEnd }
{}
