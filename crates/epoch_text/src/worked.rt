//! A worked example of the definitions: the function does nothing, and its contract is the example.
#![tactic(auto, unfolding(event_text::specs::EventText::event_lines))]

ghost use Rattle.std.specs.Prelude.{◌≡◌, [], ◌∷◌, None, codes};
ghost use Rattle.type_table.specs.declared.kind.Kind.TheVariants.{Undo};
ghost use Rattle.object_trait.specs.declared.event.EventKind.TheVariants.{Begin, Commit, Op};
ghost use Rattle.event_text.specs.EventText.{event_lines, events_of_kinds};
ghost use Rattle.history_text.specs.Canonical.{canonical_text};
ghost use Rattle.epoch_text.specs.EpochText.{text_with_lines};

/// One object, and a transaction that did operation 1 there.
pub fn text_of_an_epoch()
    ensures lines { event_lines (Begin 0 ∷ Op 1 0 0 ∷ Commit 0 ∷ []) ≡ codes "begin 0 0\nop 0 0 0 1\ncommit 0 0\n" }
    ensures text { text_with_lines (record { kind = Undo; file = 2; name = None } ∷ []) (codes "begin 0 0\nop 0 0 0 1\ncommit 0 0\n") ≡ codes "object undo 2\nbegin 0 0\nop 0 0 0 1\ncommit 0 0\nend\n" }
    ensures canonical { canonical_text (record { kind = Undo; file = 2; name = None } ∷ []) (events_of_kinds (Begin 0 ∷ Op 1 0 0 ∷ Commit 0 ∷ [])) ≡ codes "object undo 2\nbegin 0 0\nop 0 0 0 1\ncommit 0 0\nend\n" }
    ensures none { text_with_lines (record { kind = Undo; file = 2; name = None } ∷ []) [] ≡ codes "object undo 2\nend\n" }
{}
