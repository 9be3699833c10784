//! Worked examples of the definitions: each function does nothing, and its contract is the example.
#![tactic(auto, unfolding(type_table::specs::Table::next))]

ghost use Rattle.std.specs.Prelude.{◌≡◌, [], ◌∷◌, Some, codes};
ghost use Rattle.type_table.specs.Operation.{operation_at};
ghost use Rattle.object_trait.specs.declared.event.EventKind.TheVariants.{Op};
ghost use Rattle.script_run.specs.Examples.{counter_run_text, never_refused, only_at, ended};
ghost use Rattle.script_run.specs.Laws.{IsOpInRange};
ghost use Rattle.script_run.specs.Turns.{event_turn, line_of};

/// A refused command is a comment, and a transaction that stays open is aborted after the commands.
pub fn an_abort_keeps_others()
    ensures { counter_run_text 20 never_refused 1 ≡ ended
        (codes "object undo 0" ∷ codes "begin 0 0" ∷ codes "begin 0 1" ∷ codes "op 0 0 0 0" ∷ codes "op 0 1 0 0" ∷ codes "abort 0 0"
        ∷ codes "# refused 1 NotOpen" ∷ codes "commit 0 1" ∷ codes "begin 0 2" ∷ codes "abort 0 2" ∷ codes "end" ∷ codes "# kept 0 1" ∷ []) }
{}

/// Where memory is refused, the command is refused, and what comes after it goes on without it.
pub fn memory_is_refused_at_a_place()
    ensures { counter_run_text 20 (only_at 1) 0 ≡ ended
        (codes "object undo 0" ∷ codes "begin 0 0" ∷ codes "# refused 6 NoMemory" ∷ codes "op 0 0 0 0" ∷ codes "# refused 1 NotOpen" ∷ codes "abort 0 0"
        ∷ codes "# refused 1 NotOpen" ∷ codes "# refused 1 NotOpen" ∷ codes "begin 0 1" ∷ codes "abort 0 1" ∷ codes "end" ∷ codes "# kept 0 0" ∷ []) }
{}

/// The history is full: what the limit leaves no room for is refused.
pub fn a_full_history_refuses()
    ensures { counter_run_text 4 never_refused 0 ≡ ended
        (codes "object undo 0" ∷ codes "begin 0 0" ∷ codes "begin 0 1" ∷ codes "# refused 5 HistoryFull" ∷ codes "# refused 5 HistoryFull" ∷ codes "abort 0 0"
        ∷ codes "# refused 1 NotOpen" ∷ codes "commit 0 1" ∷ codes "# refused 5 HistoryFull" ∷ codes "end" ∷ codes "# kept 0 0" ∷ []) }
{}

/// The line of an operation has its place, and its amount where it has one.
pub fn lines_of_operations()
    ensures listed { line_of (event_turn [] (Op 2 0 1)) ≡ codes "op 0 0 1 2\n" }
    ensures amount { line_of (event_turn [] (Op (operation_at 2 (Some 4294967295)) 0 1)) ≡ codes "op 0 0 1 2 4294967295\n" }
{}

/// A history's text has places below 64, and amounts of 32 bits.
pub fn ranges_of_operations()
    ensures greatest { IsOpInRange (operation_at 63 (Some 4294967295)) }
    ensures place { IsOpInRange 64 → ⊥ }
    ensures amount { IsOpInRange (operation_at 63 (Some 4294967296)) → ⊥ }
{}
