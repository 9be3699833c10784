//! Worked examples of the definitions: each function does nothing, and its contract is the example.
#![tactic(auto)]

ghost use Rattle.std.specs.Prelude.{◌≡◌, ◌+◌, ◌*◌, [], ◌∷◌, codes};
ghost use Rattle.object_trait.specs.declared.event.EventKind.TheVariants.{Begin, Busy, Commit, Op, Rollback};
ghost use Rattle.event_text.specs.EventText.{IsShort, events_of_kinds, events_said, line_in_row, numeral, number_said};

/// The lines of a transaction that takes 250 of the number at object 3: its operation is at place 1.
pub fn lines_of_a_transaction()
    ensures begin { line_in_row (Begin 7) ≡ codes "begin 0 7\n" }
    ensures op { line_in_row (Op (1 + 256 * 251) 7 3) ≡ codes "op 0 7 3 1 250\n" }
    ensures listed { line_in_row (Op 1 7 3) ≡ codes "op 0 7 3 1\n" }
    ensures busy { line_in_row (Busy 4 7 3 6) ≡ codes "busy 0 7 3 4 6\n" }
    ensures commit { line_in_row (Commit 7) ≡ codes "commit 0 7\n" }
{}

/// What two lines say.
pub fn two_lines_are_two_events()
    ensures two { events_said (codes "begin 0 7\nrollback 0 7 10\n") ≡ Begin 7 ∷ Rollback 7 10 ∷ [] }
    ensures none { events_said [] ≡ [] }
{}

/// Digits.
pub fn digits_say_a_number()
    ensures zero { numeral 0 ≡ codes "0" }
    ensures ten { numeral 10 ≡ codes "10" }
    ensures said { number_said (codes "4294967296") ≡ 4294967296 }
{}

/// A number of an event has 32 bits, and the next greater one hasn't. Worker 0 makes each event.
pub fn numbers_of_32_bits()
    ensures short { IsShort (Op (1 + 256 * 4294967296) 4294967295 3) }
    ensures long { IsShort (Rollback 7 4294967296) → ⊥ }
    ensures worker { events_of_kinds (Commit 7 ∷ []) ≡ record { worker = 0; kind = Commit 7 } ∷ [] }
{}
