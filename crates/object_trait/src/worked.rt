//! Worked examples of the definitions: each function does nothing, and its contract is the example.
#![tactic(auto, unfolding(type_table::specs::Table::next))]

ghost use Rattle.std.specs.Prelude.{◌≡◌, nat_lt, [], ◌∷◌, Some};
ghost use Rattle.type_table.specs.Run.{AreEqui};
ghost use Rattle.object_trait.specs.Strike.{keep_first};
ghost use Rattle.object_trait.specs.Meaning.{state_of, view_of};
ghost use Rattle.object_trait.specs.Committed.{committed_of};
ghost use Rattle.object_trait.specs.Sound.{IsSound};
ghost use Rattle.object_trait.specs.Steps.{IsLegalFor, open_transactions, MayApply, IsCommit, IsStrike, IsAbort, IsIntentionsCommit, ShowsTheSame};
ghost use Rattle.object_trait.specs.Admissions.{admission_of};
ghost use Rattle.object_trait.specs.declared.admission.Admission.TheVariants as admission;
ghost use Rattle.object_trait.specs.Examples.{held, done_entry, counter_at, two_ups, up_and_down, down_on_up, up_behind_open, two_alike};

use crate::laws::untouched_shows_the_same;
use type_table::Kind;

/// A list without all but the first m of its small numbers.
pub fn a_strike_keeps_the_first_of_mine()
    ensures none { keep_first (λ x. nat_lt x 5) 0 (7 ∷ 3 ∷ 8 ∷ 4 ∷ 9 ∷ []) ≡ 7 ∷ 8 ∷ 9 ∷ [] }
    ensures one { keep_first (λ x. nat_lt x 5) 1 (7 ∷ 3 ∷ 8 ∷ 4 ∷ 9 ∷ []) ≡ 7 ∷ 3 ∷ 8 ∷ 9 ∷ [] }
    ensures all { keep_first (λ x. nat_lt x 5) 2 (7 ∷ 3 ∷ 8 ∷ 4 ∷ 9 ∷ []) ≡ 7 ∷ 3 ∷ 8 ∷ 4 ∷ 9 ∷ [] }
{}

/// A transaction with two open entries is listed once, and one whose entries are done not at all.
pub fn open_transactions_are_listed_once()
    ensures { open_transactions (held 1 0 ∷ held 2 0 ∷ held 1 1 ∷ done_entry 3 0 ∷ []) ≡ 2 ∷ 1 ∷ [] }
{}

/// With update in place each transaction sees the state after the whole log, also one that did nothing.
pub fn update_in_place_shows_the_whole_log()
    ensures state { state_of two_ups ≡ Some 2 }
    ensures own { view_of two_ups 1 ≡ Some 2 }
    ensures other { view_of two_ups 3 ≡ Some 2 }
{}

/// With deferred update a transaction sees what was committed and its own entries.
pub fn deferred_update_shows_the_own_entries()
    ensures state { state_of up_and_down ≡ Some 1 }
    ensures up { view_of up_and_down 1 ≡ Some 2 }
    ensures down { view_of up_and_down 2 ≡ Some 0 }
    ensures other { view_of up_and_down 3 ≡ Some 1 }
{}

/// What is open is left out of the committed state, wherever it is in the log.
pub fn an_open_entry_is_left_out()
    ensures state { state_of up_behind_open ≡ Some 2 }
    ensures in_place { committed_of up_behind_open ≡ Some 1 }
    ensures none { committed_of two_ups ≡ Some 0 }
    ensures deferred { committed_of up_and_down ≡ Some 1 }
{}

/// With deferred update from 1, who counted up can't do it again and who counted down can't either,
/// while a third can count up. With update in place at 2 nobody can.
pub fn what_is_legal_depends_on_the_view()
    ensures full { IsLegalFor up_and_down 1 0 → ⊥ }
    ensures empty { IsLegalFor up_and_down 2 1 → ⊥ }
    ensures room { IsLegalFor up_and_down 3 0 }
    ensures in_place { IsLegalFor two_ups 3 0 → ⊥ }
{}

/// Beside an open entry that counts up another transaction may count up and not down, and the one
/// that holds the entry may count down.
pub fn what_commutes_may_be_applied()
    ensures up { MayApply (counter_at Kind.Undo 0 (held 1 0 ∷ [])) 2 0 }
    ensures down { MayApply (counter_at Kind.Undo 0 (held 1 0 ∷ [])) 2 1 → ⊥ }
    ensures own { MayApply (counter_at Kind.Undo 0 (held 1 0 ∷ [])) 1 1 }
{}

/// So the other meets nobody at the one and the first at the other. At the greatest number nobody may count up.
pub fn who_asks_is_told_what_it_meets()
    ensures free { admission_of (counter_at Kind.Undo 0 (held 1 0 ∷ [])) 2 0 ≡ admission.Free }
    ensures blocked { admission_of (counter_at Kind.Undo 0 (held 1 0 ∷ [])) 2 1 ≡ admission.Blocked 1 }
    ensures own { admission_of (counter_at Kind.Undo 0 (held 1 0 ∷ [])) 1 1 ≡ admission.Free }
    ensures illegal { admission_of two_ups 3 0 ≡ admission.Illegal }
{}

/// A commit in place marks the entries, and may move done ones at the front of the log into the base.
/// A done entry after an open one stays.
pub fn a_commit_in_place_may_settle()
    ensures stays { IsCommit two_ups 1 (counter_at Kind.Undo 0 (done_entry 1 0 ∷ held 2 0 ∷ [])) }
    ensures settles { IsCommit two_ups 1 (counter_at Kind.Undo 1 (held 2 0 ∷ [])) }
    ensures behind { IsCommit two_ups 2 (counter_at Kind.Undo 0 (held 1 0 ∷ done_entry 2 0 ∷ [])) }
{}

/// A deferred commit runs the transaction's entries on the base, and one with none changes nothing.
pub fn a_deferred_commit_runs_its_entries()
    ensures up { IsCommit up_and_down 1 (counter_at Kind.Intentions 2 (held 2 1 ∷ [])) }
    ensures down { IsCommit up_and_down 2 (counter_at Kind.Intentions 0 (held 1 0 ∷ [])) }
    ensures none { IsCommit up_and_down 3 up_and_down }
{}

/// The commit of a transaction without entries may move a done entry into the base, in place, which
/// shows the same. Deferred it leaves the base, also for another state that no operation distinguishes from it.
pub fn a_commit_without_entries_shows_the_same()
    ensures in_place { IsCommit (counter_at Kind.Undo 0 (done_entry 1 0 ∷ held 2 0 ∷ [])) 3 (counter_at Kind.Undo 1 (held 2 0 ∷ [])) }
    ensures the_same { ShowsTheSame (counter_at Kind.Undo 0 (done_entry 1 0 ∷ held 2 0 ∷ [])) (counter_at Kind.Undo 1 (held 2 0 ∷ [])) }
    ensures alike { AreEqui two_alike.table (Some 0) (Some 1) }
    ensures stays { IsIntentionsCommit two_alike 0 [] 1 0 [] }
    ensures moves { IsIntentionsCommit two_alike 0 [] 1 1 [] → ⊥ }
{
    untouched_shows_the_same();
}

/// A strike takes the last entries of a transaction, and an abort all of them.
pub fn a_strike_takes_the_last()
    ensures last { IsStrike (counter_at Kind.Undo 0 (held 1 0 ∷ held 2 0 ∷ held 1 1 ∷ [])) 1 1 two_ups }
    ensures both { IsStrike (counter_at Kind.Undo 0 (held 1 0 ∷ held 2 0 ∷ held 1 1 ∷ [])) 1 2 (counter_at Kind.Undo 0 (held 2 0 ∷ [])) }
    ensures all { IsAbort (counter_at Kind.Undo 0 (held 1 0 ∷ held 2 0 ∷ held 1 1 ∷ [])) 1 (counter_at Kind.Undo 0 (held 2 0 ∷ [])) }
{}

/// Two open entries that commute make a sound log.
pub fn two_ups_are_sound()
    ensures { IsSound two_ups }
{}

/// Two open entries of different transactions that conflict don't.
pub fn down_on_up_is_not_sound()
    ensures { IsSound down_on_up → ⊥ }
{}
