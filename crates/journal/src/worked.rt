//! Worked examples of the definitions: each function does nothing, and its contract is the example.
#![tactic(auto, unfolding(event_text::specs::EventText::event_lines))]

ghost use Rattle.std.specs.Prelude.{◌≡◌, [], ◌∷◌, None, Some, codes, negsuc, pos};
ghost use Rattle.object_trait.specs.declared.event.EventKind.TheVariants.{Begin, Commit, Op};
ghost use Rattle.sqlite_value.specs.declared.value.Value.TheVariants.{Int, Null, Text};
ghost use Rattle.event_text.specs.EventText.{event_lines};
ghost use Rattle.journal.specs.declared.event_row.EventRow.TheVariants.{Lines, Single};
ghost use Rattle.journal.specs.declared.outcome_row.Outcome.TheVariants.{Aborted, Committed};
ghost use Rattle.journal.specs.Contents.{IsFile, contents_of};
ghost use Rattle.journal.specs.EventRow.{event_row, events_in_rows, row_starts};
ghost use Rattle.journal.specs.Examples.{first_outcome, order_committed, place_of_abc, prepared_order, second_outcome, seven_and_nine, small_file, two_outcomes, rows_awaiting};
ghost use Rattle.journal.specs.Numbers.{numbers_row, numbers_told};
ghost use Rattle.journal.specs.Outcomes.{let_go, no_outcomes, outcomes_by, outcomes_of, outcomes_with};
ghost use Rattle.journal.specs.OutcomeIndex.{kept_row};
ghost use Rattle.journal.specs.OutcomeRow.{outcome_row};
ghost use Rattle.journal.specs.PlaceRow.{pointer_row};
ghost use Rattle.journal.specs.PreparedRow.{prepared_row, prepared_told};
ghost use Rattle.journal.specs.RowPlaces.{AreBefore, HaveEvents};

use transaction_key::worked::a_place;

/// A transaction at object 3 that was written at once, then one of which a file of an older format has each event in a row.
pub fn rows_of_events()
    ensures row { event_row 0 (Lines (Begin 0 ∷ Op 1 0 3 ∷ Commit 0 ∷ [])) ≡ Int (pos 0) ∷ Null ∷ Text (codes "begin 0 0\nop 0 0 3 1\ncommit 0 0\n") ∷ Int (pos 3) ∷ [] }
    ensures events { events_in_rows (Lines (Begin 0 ∷ Op 1 0 3 ∷ Commit 0 ∷ []) ∷ Single (Begin 1) ∷ Single (Commit 1) ∷ []) ≡ Begin 0 ∷ Op 1 0 3 ∷ Commit 0 ∷ Begin 1 ∷ Commit 1 ∷ [] }
    ensures lines { event_lines (events_in_rows (Lines (Begin 0 ∷ Op 1 0 3 ∷ Commit 0 ∷ []) ∷ Single (Begin 1) ∷ Single (Commit 1) ∷ [])) ≡ codes "begin 0 0\nop 0 0 3 1\ncommit 0 0\nbegin 0 1\ncommit 0 1\n" }
    ensures starts { row_starts 0 (Lines (Begin 0 ∷ Op 1 0 3 ∷ Commit 0 ∷ []) ∷ Single (Begin 1) ∷ Single (Commit 1) ∷ []) ≡ 0 ∷ 3 ∷ 4 ∷ [] }
{}

/// Of these rows the last two have the events from place 3 on; the first one, and another, has that at place 2.
pub fn rows_that_have_events()
    ensures last { HaveEvents (0 ∷ 3 ∷ 4 ∷ []) 3 2 (record { first = 1; start = 3; count = 2 }) }
    ensures one { HaveEvents (0 ∷ 3 ∷ 4 ∷ []) 2 1 (record { first = 0; start = 0; count = 1 }) }
    ensures more { HaveEvents (0 ∷ 3 ∷ 4 ∷ []) 2 1 (record { first = 0; start = 0; count = 2 }) }
    ensures fewer { HaveEvents (0 ∷ 3 ∷ 4 ∷ []) 2 2 (record { first = 0; start = 0; count = 1 }) → ⊥ }
    ensures late { HaveEvents (0 ∷ 3 ∷ 4 ∷ []) 2 1 (record { first = 1; start = 3; count = 1 }) → ⊥ }
    ensures none { AreBefore (0 ∷ 3 ∷ 4 ∷ []) 2 0 }
{}

/// An order was committed with two replies as the fifth, another one aborted by a program that numbered none, and both by programs that write an outcome at
/// its place; a third place has none.
pub fn rows_of_outcomes()
    ensures committed { outcome_row 7 (record { kept = record { key = codes "order:7"; outcome = Committed (codes "taken ok") }; number = 5 }) ≡ Int (pos 7) ∷ Null ∷ Text (codes "order:7") ∷ Text (codes "committed") ∷ Text (codes "taken ok") ∷ Int (pos 5) ∷ [] }
    ensures aborted { outcome_row 9 (record { kept = record { key = codes "order:9"; outcome = Aborted }; number = 0 }) ≡ Int (pos 9) ∷ Null ∷ Text (codes "order:9") ∷ Text (codes "aborted") ∷ Text [] ∷ [] }
    ensures found { kept_row two_outcomes 9 ≡ Some (record { kept = record { key = codes "order:9"; outcome = Aborted }; number = 0 }) }
    ensures none { kept_row two_outcomes 8 ≡ None }
{}

/// Two outcomes have the key `abc`. The pointer at its place leads to the first, and the second awaits the index: it is what is kept. Where none awaits, the
/// pointer's is. A pointer leads nowhere whose outcome has another place. The row at a place that was written by an older program is kept there. The second is
/// what is kept too where the row of the numbers doesn't count it yet as one that awaits.
pub fn outcomes_that_await()
    ensures pointer { pointer_row 7 1 ≡ Int (pos 7) ∷ Null ∷ Null ∷ Null ∷ Null ∷ Int (pos 1) ∷ [] }
    ensures last { kept_row (rows_awaiting 1) place_of_abc ≡ Some second_outcome }
    ensures pointed { kept_row (rows_awaiting 0) place_of_abc ≡ Some first_outcome }
    ensures elsewhere { kept_row (rows_awaiting 0) 8 ≡ None }
    ensures whole { kept_row (rows_awaiting 1) 7 ≡ Some order_committed }
    ensures uncounted { (outcomes_by (record { next = 3; first = 0; least = 2; awaiting = 1 }) (rows_awaiting 0)).at place_of_abc ≡ Some second_outcome.kept }
{
    a_place();
}

/// Where as many are kept as two, and the next is the sixth, what was kept as the fourth or later stays: the fifth does, and one without a number goes.
pub fn outcomes_that_stay()
    ensures numbers { numbers_row (record { next = 6; first = 4; least = 2; awaiting = 3 }) ≡ Int (negsuc 0) ∷ Null ∷ Text [] ∷ Text (codes "numbers") ∷ Text [] ∷ Int (pos 6) ∷ Int (pos 4) ∷ Int (pos 2) ∷ Int (pos 3) ∷ [] }
    ensures older { numbers_told (Int (negsuc 0) ∷ Null ∷ Text [] ∷ Text (codes "numbers") ∷ Text [] ∷ Int (pos 6) ∷ Int (pos 4) ∷ Int (pos 2) ∷ []) ≡ record { next = 6; first = 4; least = 2; awaiting = 0 } }
    ensures before { (outcomes_of (record { next = 6; first = 0; least = 2; awaiting = 0 }) seven_and_nine).at 9 ≡ Some (record { key = codes "order:9"; outcome = Aborted }) }
    ensures goes { (let_go (outcomes_of (record { next = 6; first = 0; least = 2; awaiting = 0 }) seven_and_nine)).at 9 ≡ None }
    ensures stays { (let_go (outcomes_of (record { next = 6; first = 0; least = 2; awaiting = 0 }) seven_and_nine)).numbers 7 ≡ 5 }
    ensures after { (outcomes_of (record { next = 6; first = 4; least = 2; awaiting = 0 }) seven_and_nine).at 9 ≡ None }
    ensures more { (outcomes_with no_outcomes (record { key = codes "order:9"; outcome = Aborted })).next ≡ 2 }
{}

/// A prepared transaction is a row of its position, its key, the name that its client has, its number and how long it waits.
pub fn rows_of_prepared()
    ensures row { prepared_row 0 prepared_order ≡ Int (pos 0) ∷ Null ∷ Text (codes "order:7") ∷ Int (pos 1) ∷ Int (pos 3) ∷ Int (pos 4) ∷ Int (pos 60) ∷ [] }
    ensures told { prepared_told (Int (pos 2) ∷ Null ∷ Text (codes "order:7") ∷ Int (pos 1) ∷ Int (pos 3) ∷ Int (pos 4) ∷ Int (pos 60) ∷ []) ≡ prepared_order }
{}

/// A file of format 7 says of a transaction that it is prepared; one of format 6 doesn't, and no file does so at another position.
pub fn small_files()
    ensures says { (contents_of (small_file 7 (prepared_row 0 prepared_order ∷ []))).prepared ≡ prepared_order ∷ [] }
    ensures is { IsFile (small_file 7 (prepared_row 0 prepared_order ∷ [])) }
    ensures none { IsFile (small_file 6 []) }
    ensures older { IsFile (small_file 6 (prepared_row 0 prepared_order ∷ [])) → ⊥ }
    ensures elsewhere { IsFile (small_file 7 (prepared_row 1 prepared_order ∷ [])) → ⊥ }
{}
