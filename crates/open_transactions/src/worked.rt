//! Worked examples of the definitions: each function does nothing, and its contract is the example.

ghost use Rattle.std.specs.Prelude.{◌≡◌, ◌++◌, true, false, [], ◌∷◌, None, Some, slice_set};
ghost use Rattle.open_transactions.specs.Transactions.{row, has_row, count_open, worker_of, objects_of_row, begun_by, pushed, kept, changed};
ghost use Rattle.open_transactions.specs.Examples.{three};

pub fn open_ones_are_told()
    ensures with_places { has_row three 0 ≡ true }
    ensures ended { has_row three 1 ≡ false }
    ensures without_places { has_row three 2 ≡ true }
    ensures never_began { has_row three 3 ≡ false }
    ensures count { count_open three ≡ 2 }
{}

pub fn rows_are_told()
    ensures worker { worker_of (row three 0) ≡ 4 }
    ensures other_worker { worker_of (row three 2) ≡ 1 }
    ensures places { objects_of_row (row three 0) ≡ 7 ∷ 2 ∷ [] }
    ensures no_places { objects_of_row (row three 2) ≡ [] }
{}

pub fn places_change()
    ensures pushed_behind { row (changed three 0 (pushed 5)) 0 ≡ Some (record { worker = 4; places = 7 ∷ 2 ∷ 5 ∷ [] }) }
    ensures first_are_kept { row (changed three 0 (kept 1)) 0 ≡ Some (record { worker = 4; places = 7 ∷ [] }) }
    ensures more_than_all_are_kept { changed three 0 (kept 3) ≡ three }
    ensures ended_stays { changed three 1 (pushed 5) ≡ three }
    ensures other_stays { row (changed three 0 (pushed 5)) 2 ≡ row three 2 }
{}

pub fn transactions_begin_and_end()
    ensures begun { count_open (three ++ Some (begun_by 9) ∷ []) ≡ 3 }
    ensures last { row (three ++ Some (begun_by 9) ∷ []) 3 ≡ Some (record { worker = 9; places = [] }) }
    ensures ended { slice_set three 0 None ≡ None ∷ None ∷ Some (begun_by 1) ∷ [] }
    ensures fewer { count_open (slice_set three 0 None) ≡ 1 }
{}
