//! Worked examples: each function does nothing, and its contract is the example.
#![tactic(auto)]

ghost use Rattle.std.specs.Prelude.{◌≡◌, ◌∷◌, [], codes};
ghost use Rattle.store.specs.HeldAt.{AreHeldAt};
ghost use Rattle.key_commands.specs.OpenObjects.{open_objects};
ghost use Rattle.key_commands.specs.Prepared.{held_line};
ghost use Rattle.key_commands.specs.Examples.{first_prepared, two_work};
ghost use Rattle.key_commands.specs.declared.held_transactions.HeldTransaction.{HeldTransaction};

/// What was taken back isn't held, nor what a transaction did that ended.
pub fn what_was_taken_back_is_not_held()
    ensures survives { open_objects two_work 0 ≡ 2 ∷ 0 ∷ 2 ∷ [] }
    ensures held { AreHeldAt two_work 0 (0 ∷ 2 ∷ []) }
    ensures ended { AreHeldAt two_work 1 [] }
{}

/// The objects are at the end of a line.
pub fn a_line_ends_with_the_objects()
    ensures two { (held : HeldTransaction) → held.prepared ≡ first_prepared → held.objects.items ≡ 0 ∷ 2 ∷ [] → held_line held ≡ codes "order:7 1.3 60 0 2\n" }
    ensures none { (held : HeldTransaction) → held.prepared ≡ first_prepared → held.objects.items ≡ [] → held_line held ≡ codes "order:7 1.3 60\n" }
{}
