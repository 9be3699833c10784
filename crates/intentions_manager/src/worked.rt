//! Worked examples of the definitions: each function does nothing, and its contract is the example.
#![tactic(auto, unfolding(type_table::specs::Table::next))]

ghost use Rattle.std.specs.Prelude.{◌≡◌, [], ◌∷◌};
ghost use Rattle.type_table.specs.Examples.{counter_table};
ghost use Rattle.intentions_manager.specs.Views.{ViewsAscend, view_index, seen_by, with_view, without_view};
ghost use Rattle.intentions_manager.specs.Walk.{walked, carried};
ghost use Rattle.intentions_manager.specs.Examples.{seen_view, two_views, up_and_down_log};

/// A transaction sees its view, or base where it has none.
pub fn each_sees_its_own_entries()
    ensures place { view_index 2 two_views ≡ 1 }
    ensures behind { view_index 3 two_views ≡ 2 }
    ensures before { view_index 0 two_views ≡ 0 }
    ensures own { seen_by 2 1 two_views ≡ seen_view 2 0 1 }
    ensures other { seen_by 3 1 two_views ≡ seen_view 3 1 0 }
    ensures ordered { ViewsAscend two_views }
{}

/// A view takes the place of the one before it, and a first one goes before those of later
/// transactions.
pub fn a_transaction_has_one_view()
    ensures again { with_view (seen_view 2 1 2) two_views ≡ seen_view 1 2 1 ∷ seen_view 2 1 2 ∷ [] }
    ensures first { with_view (seen_view 3 2 1) two_views ≡ seen_view 1 2 1 ∷ seen_view 2 0 1 ∷ seen_view 3 2 1 ∷ [] }
    ensures early { with_view (seen_view 0 2 1) two_views ≡ seen_view 0 2 1 ∷ seen_view 1 2 1 ∷ seen_view 2 0 1 ∷ [] }
    ensures gone { without_view 1 two_views ≡ seen_view 2 0 1 ∷ [] }
{}

/// A commit of the transaction that counted up carries the other's view on: from the new base, which
/// is 2, it has counted down to 1.
pub fn a_commit_carries_the_others_on()
    ensures walks { walked counter_table 1 1 up_and_down_log ≡ 2 }
    ensures carries { carried counter_table 1 up_and_down_log (without_view 1 two_views) ≡ seen_view 2 1 1 ∷ [] }
{}
